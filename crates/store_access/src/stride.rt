// The distance between two records of a chain. Who follows a chain guesses the next record by the last distance and compares
// the guess with the link: where it was right, the processor has gone on without waiting for the link.
ghost use Rattle.std.specs.Prelude.{◌≡◌, ◌-◌};

// How far `to` lies above `from`; 0 where it does not.
// Kept: a distance of 0 is a guess like every other, and none has to be told apart.
pub fn between(from: usize, to: usize) -> usize
    ensures { result ≡ to - from }
{
    to.saturating_sub(from)
}
