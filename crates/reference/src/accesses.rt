//! Lists of accesses, and of what they read.

use platform::access::{MAX_REQUESTS, Request};
use platform::bounded::Bounded;

/// The accesses of an instruction, or of a frame, in their order.
pub type Requests = Bounded<Request, MAX_REQUESTS>;

/// The values that an instruction read, in the order of its accesses.
pub type Values = Bounded<u32, MAX_REQUESTS>;
