// One record as numbers, in the order of its layout: how many there are, what they say, and that numbers written as a record
// are read back. The code is in modules `put`, `rows` and `fields`.
ghost use Rattle.record_words.specs.ReadBack.{NumbersReadBack};

// The numbers of a record: nine, and two for each row.
pub const COUNT: usize = ROWS_FIRST + 2 * item::MAX_NODES;

// Where the numbers of the rows begin.
pub const ROWS_FIRST: usize = 9;

// Numbers that were written as a record are read back from it.
pub fn reads_back()
    ensures { NumbersReadBack }
{}
