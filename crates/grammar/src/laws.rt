// The laws, over all sources.
ghost use Rattle.grammar.specs.Decided.{FaultsAreDecided, RefusedAlike};
ghost use Rattle.grammar.specs.Laws.{WrittenIsRead, ReadIsWritten, TokensEnd, ReadsTheGrammar, SaysOne};

// A fault is decided by the tokens up to the one behind it.
pub fn faults_are_decided() -> u8
    ensures { FaultsAreDecided }
{
    0
}

// Sources that agree up to there are refused alike.
pub fn refused_alike() -> u8
    ensures { RefusedAlike }
{
    0
}

// What the grammar says is read, and as that program.
pub fn written_is_read() -> u8
    ensures { WrittenIsRead }
{
    0
}

// The grammar says one program at most of a source.
pub fn says_one() -> u8
    ensures { SaysOne }
{
    0
}

// What is read is what the grammar says.
pub fn read_is_written() -> u8
    ensures { ReadIsWritten }
{
    0
}

// The tokens of a source end with the end.
pub fn tokens_end() -> u8
    ensures { TokensEnd }
{
    0
}

// A source is read as a program if and only if the grammar says so.
pub fn reads_the_grammar() -> u8
    ensures { ReadsTheGrammar }
{
    0
}
