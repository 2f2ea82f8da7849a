//! The registers on the way into a handler and out of it (ARM DDI 0403, `PushStack()`,
//! `ExceptionTaken()` and `PopStack()`).

ghost use Rattle.std.specs.Prelude.{◌≡◌, ◌<◌, ◌%◌, ◌^◌, length, None};
ghost use Rattle.instruction_set.specs.Frames as spec;
ghost use Rattle.instruction_set.specs.Frames.{frame_base, with_frame, in_handler, frame_pointer, with_frame_pointer};
ghost use Rattle.instruction_set.specs.Frames.{general_popped, popped, popped_pc, popped_xpsr};
ghost use Rattle.instruction_set.specs.Registers.{sp};
ghost use Rattle.instruction_set.specs.Words.{is_bit};

use crate::{Regs, flags_of, mask_if};

/// EXC_RETURN of Handler mode.
const HANDLER: u32 = 0xFFFF_FFF1;

/// EXC_RETURN of Thread mode on MSP.
const THREAD: u32 = 0xFFFF_FFF9;

/// EXC_RETURN of Thread mode on PSP.
const THREAD_ON_PSP: u32 = 0xFFFF_FFFD;

/// The size of a frame in bytes.
const FRAME_SIZE: u32 = 0x20;

/// Returns whether an EXC_RETURN returns to Handler mode.
pub fn returns_to_handler(exc_return: u32) -> bool
    ensures { result ≡ spec.returns_to_handler exc_return }
{
    exc_return & 15 == 1
}

/// Returns whether an EXC_RETURN returns to Thread mode on PSP.
pub fn returns_on_psp(exc_return: u32) -> bool
    ensures { result ≡ spec.returns_on_psp exc_return }
{
    exc_return & 15 == 13
}

impl Regs {
    /// Returns the EXC_RETURN in LR of a handler that interrupts this code.
    pub fn exc_return(&self) -> u32
        ensures { result ≡ spec.exc_return self.now }
    {
        if self.is_handler() {
            HANDLER
        } else if self.process_stack {
            THREAD_ON_PSP
        } else {
            THREAD
        }
    }

    /// Returns the address of the frame that exception entry pushes.
    pub fn frame_address(&self) -> u32
        ensures { result ≡ frame_base (sp self.now) }
    {
        self.sp().wrapping_sub(FRAME_SIZE) & !7
    }

    /// Returns the words of that frame, from its address upward: R0 to R3, R12, LR, the return
    /// address, and xPSR, in which bit 9 says whether bit 2 of SP was set.
    #[tactic(auto, unfolding(instruction_set::specs::Frames::frame))]
    pub fn frame(&self) -> [u32; 8]
        ensures { result ≡ spec.frame self.now }
    {
        let xpsr = self.xpsr() + mask_if(self.sp() >> 2 & 1 == 1, 1 << 9);
        let general = self.general();
        [
            general[0],
            general[1],
            general[2],
            general[3],
            general[12],
            self.link(),
            self.pc,
            xpsr,
        ]
    }

    /// Moves SP to the address of the frame that exception entry pushes.
    pub fn reserve_frame(&mut self)
        ensures { self.new ≡ with_frame self.old }
    {
        let address = self.frame_address();
        self.set_sp(address);
    }

    /// Begins the handler of an exception at a vector.
    #[tactic(auto, unfolding(instruction_set::specs::Frames::in_handler))]
    pub fn enter_handler(&mut self, exception: u16, exc_return: u32, vector: u32)
        requires { exception < 512 }
        ensures { self.new ≡ in_handler self.old exception exc_return vector }
    {
        self.branch_exchange(vector);
        self.set_link(exc_return);
        self.it_state = 0;
        self.set_mode(exception, false);
        self.clear_mark();
    }

    /// Returns the stack pointer that an EXC_RETURN names.
    pub fn returned_stack(&self, exc_return: u32) -> u32
        ensures { result ≡ frame_pointer self.now exc_return }
    {
        if returns_on_psp(exc_return) {
            self.process_stack()
        } else {
            self.main_stack()
        }
    }

    /// Sets the stack pointer that an EXC_RETURN names.
    fn set_returned_stack(&mut self, exc_return: u32, value: u32)
        ensures { self.new ≡ with_frame_pointer self.old exc_return value }
    {
        self.set_stack(returns_on_psp(exc_return), value);
    }

    /// Takes the registers from a frame, as a return with this EXC_RETURN does.
    pub fn pop_frame(&mut self, exc_return: u32, frame: &[u32])
        requires { length frame.now ≡ 8 }
        ensures { self.new ≡ popped self.old exc_return frame.now }
    {
        let xpsr = frame_word(frame, 7);
        let above = above_frame(self.returned_stack(exc_return), xpsr);
        self.set_returned_stack(exc_return, above);
        self.pop_general(frame);
        self.set_link(frame_word(frame, 5));
        self.set_flags(flags_of(xpsr));
        self.resume(frame);
        self.set_mode(exception_of(xpsr), returns_on_psp(exc_return));
    }

    /// Takes R0 to R3 and R12 from a frame.
    fn pop_general(&mut self, frame: &[u32])
        requires { length frame.now ≡ 8 }
        ensures { self.new ≡ record self.old { general = general_popped self.old.general frame.now } }
    {
        self.words[0] = frame_word(frame, 0);
        self.words[1] = frame_word(frame, 1);
        self.words[2] = frame_word(frame, 2);
        self.words[3] = frame_word(frame, 3);
        self.words[12] = frame_word(frame, 4);
    }

    /// Takes PC, IT and T from a frame, and clears the local monitor.
    fn resume(&mut self, frame: &[u32])
        requires { length frame.now ≡ 8 }
        ensures { self.new ≡ record self.old {
          pc = popped_pc frame.now;
          it_state = spec.it_of (popped_xpsr frame.now);
          thumb = is_bit (popped_xpsr frame.now) 24;
          monitor = None;
        } }
    {
        let xpsr = frame_word(frame, 7);
        self.pc = frame_word(frame, 6);
        self.it_state = it_of(xpsr);
        self.thumb = thumb_of(xpsr);
        self.monitor = None;
    }
}

/// Returns word `place` of a frame, counted from its address upward.
fn frame_word(frame: &[u32], place: usize) -> u32
    requires whole { length frame.now ≡ 8 }
    requires within { place < 8 }
    ensures { result ≡ spec.frame_word frame.now place }
{
    frame[place]
}

/// Returns the stack pointer above a frame, with bit 2 as it was before the frame was pushed.
fn above_frame(base: u32, xpsr: u32) -> u32
    ensures { result ≡ spec.above_frame base xpsr }
{
    let above = base.wrapping_add(FRAME_SIZE);
    if xpsr >> 9 & 1 == 1 { above | 4 } else { above }
}

fn thumb_of(xpsr: u32) -> bool
    ensures { result ≡ is_bit xpsr 24 }
{
    xpsr >> 24 & 1 == 1
}

fn it_of(xpsr: u32) -> u8
    ensures { result ≡ spec.it_of xpsr }
{
    ((xpsr >> 10 & 63) * 4 + (xpsr >> 25 & 3)) as u8
}

/// Returns IPSR of an xPSR.
fn exception_of(xpsr: u32) -> u16
    ensures value { result ≡ xpsr % 2 ^ 9 }
    ensures small { result < 512 }
{
    (xpsr & 0x1FF) as u16
}
