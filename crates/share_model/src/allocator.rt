//! Questions of a test to the allocator of `.ci/allocator.c`: to refuse requests for memory in turn, and whether blocks
//! were kept. A question is a request of a size that nothing else asks for. Its refusal is yes. Any other allocator
//! grants it, which is no, so there such a test passes.

/// A question asks for this many bytes and its number.
pub const QUESTION: usize = 0x5a5_1000;

/// Refuse each request from here on. Any lesser number n, from 1: refuse only the n-th request from here on. The answer
/// is no.
pub const REFUSE_EACH: u16 = 4095;

/// Refuse no request from here on. The answer is yes if one was refused since refusals were asked for.
pub const WAS_REFUSED: u16 = 4096;

/// Remember the number of blocks held. The answer is no.
pub const MARK_HELD: u16 = 4097;

/// The answer is yes if more or fewer blocks are held than were remembered.
pub const IS_HELD_OTHER: u16 = 4098;

/// Asks the allocator the question of this number: `asks!(alloc, REFUSE_EACH)`.
#[macro_export]
macro_rules! asks {
    ($alloc:expr, $number:expr) => {
        Vec::<u8>::with_capacity($alloc, $crate::allocator::QUESTION + usize::from($number)).is_err()
    };
}
