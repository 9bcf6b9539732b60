// One of two numbers, without a jump: the processor has nothing to guess, whichever it is.
ghost use Rattle.bits.specs.Choice.{Picked};

// The first number where the test passed, and the other one where it failed.
pub fn either(first: bool, a: u64, b: u64) -> u64
    ensures { Picked first a b result }
{
    if first { a } else { b }
}
