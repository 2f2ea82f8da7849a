//! Laws of the definitions of devices. The functions do nothing: their contracts are the laws.

ghost use Rattle.std.specs.Prelude.{ℕ, List};
ghost use Rattle.devices.specs.declared.device.Poke.{Poke as ThePoke};
ghost use Rattle.instruction_set.specs.declared.size.Size.{Size as TheSize};
ghost use Rattle.devices.specs.Copies.{HaveSameDevices};
ghost use Rattle.devices.specs.Devices.{DeviceWords as State, after_store_at, loaded, poked};
ghost use Rattle.devices.specs.Laws.{LastPokeDecides};

/// The content of a word after the pokes of a tick is known without making them.
pub fn last_poke_decides()
    ensures { (ds : List State) (ticks : ℕ) (ps : List ThePoke) (a : ℕ) → LastPokeDecides ds ticks ps a }
{}

/// A poke, a load and a store leave the devices: they change words alone.
pub fn devices_stay()
    ensures poke { (ds es : List State) (ticks a content : ℕ) → HaveSameDevices ds es →
        HaveSameDevices (poked ds ticks a content) es }
    ensures load { (ds es : List State) (ticks a : ℕ) → HaveSameDevices ds es →
        HaveSameDevices (loaded ds ticks a) es }
    ensures store { (ds es : List State) (ticks a : ℕ) (size : TheSize) (v : ℕ) → HaveSameDevices ds es →
        HaveSameDevices (after_store_at ds ticks a size v) es }
{}
