//! Commands, and their words as values.
ghost use Rattle.std.specs.Prelude.{◌≡◌, ◌≢◌, ℕ, Err, MatchOption, MatchResult};
ghost use Rattle.block.specs.Names.{block_name};
ghost use Rattle.block.specs.declared.blocks.EcBlock.{EcBlock};
ghost use Rattle.console.specs.declared.misread.Misread.TheVariants.{NoName, NoNumber, NoSuchBlock, NotANumber};
ghost use Rattle.ecsend.specs.Number.{Writes};

use block::EcBlock;
use console::Misread;

/// What a line asks for.
#[derive(Drop)]
pub enum Command {
    Block(EcBlock),
    Call(Call),
    Help,
}

/// A call of the codec, for the block that was named.
#[derive(Drop)]
pub enum Call {
    Send(Vec<u8>),
    Slot {
        total: usize,
        slots: usize,
        repeat: usize,
        burst: usize,
    },
    Repeat {
        total: usize,
        slots: usize,
        burst: usize,
        slot: usize,
    },
}

/// The block that a word names, if there is a word.
pub fn block_word(word: Option<&str>) -> Result<EcBlock, Misread>
    ensures value { MatchOption word.entry (result ≡ Err NoName) (λ name. MatchResult result (λ block. name.now ≡ block_name block) (λ e. (e ≡ NoSuchBlock) × ((block : EcBlock) → name.now ≢ block_name block))) }
{
    let name = word.ok_or(Misread::NoName)?;
    name.parse().map_err(|_| Misread::NoSuchBlock)
}

/// The number that a word writes, if there is a word.
pub fn number_word(word: Option<&str>) -> Result<usize, Misread>
    ensures value { MatchOption word.entry (result ≡ Err NoNumber) (λ text. MatchResult result (Writes text.now) (λ e. (e ≡ NotANumber) × ((n : ℕ) → Writes text.now n → ⊥))) }
{
    number(word.ok_or(Misread::NoNumber)?)
}

// The number that digits write; a sign is none.
fn number(text: &str) -> Result<usize, Misread>
    ensures value { MatchResult result (Writes text.now) (λ e. (e ≡ NotANumber) × ((n : ℕ) → Writes text.now n → ⊥)) }
{
    if text.starts_with('+') {
        return Err(Misread::NotANumber);
    }
    text.parse().map_err(|_| Misread::NotANumber)
}
