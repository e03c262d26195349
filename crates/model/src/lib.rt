// The theorems over the model, each the contract of a function, so that the check asks for its proof.
//
// The model has no code to run: specs/ says what a switch program means, what the pipeline does, and what is promised of the two.
#![tactic(auto)]

ghost use Rattle.model.specs.Promises.{PlacementIsSound, StoppingIsTheRule, AsMeant, Alone, Updates, TwoVersionsSuffice, BlocksMean, Untouched, WorkedCases, RowsUnfold};

// What the placement rule lays out is sound, and keeps the limits of a stage.
pub fn placement_is_sound() -> u8
    ensures { PlacementIsSound }
{
    0
}

// Placement that stops at one node too many is the rule.
pub fn stopping_is_the_rule() -> u8
    ensures { StoppingIsTheRule }
{
    0
}

// Every packet leaves after k steps, in order, as the program means it with the tables as they stood when it came.
pub fn as_meant() -> u8
    ensures { AsMeant }
{
    0
}

// With another packet in the place of one, all others leave as before.
pub fn alone() -> u8
    ensures { Alone }
{
    0
}

// When an update is refused, and for how long.
pub fn updates() -> u8
    ensures { Updates }
{
    0
}

// A pipeline that keeps two versions does what one that keeps all does.
pub fn two_versions_suffice() -> u8
    ensures { TwoVersionsSuffice }
{
    0
}

// Blocks done from top to bottom mean what their tree of paths means.
pub fn blocks_mean() -> u8
    ensures { BlocksMean }
{
    0
}

// Fields that a program and its tables don't change stay as they were.
pub fn untouched() -> u8
    ensures { Untouched }
{
    0
}

// The worked cases come out as they should.
pub fn worked_cases() -> u8
    ensures { WorkedCases }
{
    0
}

// Blocks written as a row of statements stand for the paths of the blocks.
pub fn rows_unfold() -> u8
    ensures { RowsUnfold }
{
    0
}
