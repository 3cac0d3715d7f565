ghost use Rattle.std.specs.Prelude.{◌≡◌, ◌≢◌, ◌≤◌, ◌∷◌, ℕ, List, pos, IfNone, IfSome, codes, map, string_bytes};
ghost use Rattle.std.specs.Fmt.{decimal};
ghost use Rattle.qm_top.specs.declared.command.Command.{Command};
ghost use Rattle.qm_top.specs.Words.{Asks, AsksNodes, IsBudget};

use qm_text::{one_word_a_number, read_whole};

/// The budget where the words name none.
pub const USUAL: u64 = 1_000_000;

/// The greatest budget.
const GREATEST: u32 = 50_000_000;

/// The greatest number that a problem is made of.
const LAST: u32 = 2_147_483_647;

/// The most variables of a problem that is made.
const LARGEST: u32 = 100;

/// What the words ask for.
#[derive(Clone, Copy, Debug, PartialEq, Eq)]
pub enum Command {
    /// The ending of the problem in a file, by a search of at most so many entries: `solve FILE [--nodes N]`.
    Solve { nodes: u64 },
    /// Whether a certificate in a file shows what it claims about the problem in a file: `check FILE CERT`.
    Check,
    /// The problem of a number and a size: `gen NUMBER SIZE`.
    Gen { number: u32, size: u32 },
    /// How that problem ends, in three lines: `gen NUMBER SIZE --solve`.
    GenSolve { number: u32, size: u32 },
}

/// The number, where it lies within these bounds.
fn within(number: i64, least: u32, most: u32) -> Option<u32>
    ensures some { IfSome result (λ n. (least ≤ n) × (n ≤ most) × (number ≡ pos n)) }
    ensures none { IfNone result ((n : ℕ) → least ≤ n → n ≤ most → number ≢ pos n) }
{
    if i64::from(least) <= number && number <= i64::from(most) {
        Some(number as u32)
    } else {
        None
    }
}

/// The number that a word spells in decimal; None where it spells none within these bounds.
fn number_of(word: &[u8], least: u32, most: u32) -> Option<u32>
    ensures some { IfSome result (λ n. (least ≤ n) × (n ≤ most) × (word.now ≡ decimal n)) }
    ensures none { IfNone result ((n : ℕ) → least ≤ n → n ≤ most → word.now ≢ decimal n) }
{
    one_word_a_number();
    match read_whole(word) {
        Ok(number) => within(number, least, most),
        Err(_) => None,
    }
}

/// The budget that the words behind FILE ask for; None where they are none of the forms.
fn nodes_of(words: &[String]) -> Option<u64>
    ensures some { IfSome result (λ nodes. AsksNodes nodes (map string_bytes words.now)) }
    ensures none { IfNone result ((nodes : ℕ) → ¬ AsksNodes nodes (map string_bytes words.now)) }
{
    match words {
        [] => Some(USUAL),
        [option, number] => {
            if option.as_str() == "--nodes" {
                let nodes = number_of(number.as_bytes(), 1, GREATEST)?;
                Some(u64::from(nodes))
            } else {
                None
            }
        }
        _ => None,
    }
}

/// The command of the words behind `solve`.
fn solve_of(words: &[String]) -> Option<Command>
    ensures some { IfSome result (λ command. Asks command (codes "solve" ∷ map string_bytes words.now)) }
    ensures none { IfNone result ((command : Command) → ¬ Asks command (codes "solve" ∷ map string_bytes words.now)) }
{
    match words {
        [file, behind @ ..] => {
            if file.as_str().is_empty() {
                None
            } else {
                let nodes = nodes_of(behind)?;
                Some(Command::Solve { nodes })
            }
        }
        [] => None,
    }
}

/// The command of the words behind `check`.
fn check_of(words: &[String]) -> Option<Command>
    ensures some { IfSome result (λ command. Asks command (codes "check" ∷ map string_bytes words.now)) }
    ensures none { IfNone result ((command : Command) → ¬ Asks command (codes "check" ∷ map string_bytes words.now)) }
{
    match words {
        [file, certificate] => {
            if file.as_str().is_empty() || certificate.as_str().is_empty() {
                None
            } else {
                Some(Command::Check)
            }
        }
        _ => None,
    }
}

/// The command of the words behind `gen`.
fn gen_of(words: &[String]) -> Option<Command>
    ensures some { IfSome result (λ command. Asks command (codes "gen" ∷ map string_bytes words.now)) }
    ensures none { IfNone result ((command : Command) → ¬ Asks command (codes "gen" ∷ map string_bytes words.now)) }
{
    match words {
        [number, size] => {
            let number = number_of(number.as_bytes(), 0, LAST)?;
            let size = number_of(size.as_bytes(), 1, LARGEST)?;
            Some(Command::Gen { number, size })
        }
        [number, size, option] => {
            if option.as_str() == "--solve" {
                let number = number_of(number.as_bytes(), 0, LAST)?;
                let size = number_of(size.as_bytes(), 1, LARGEST)?;
                Some(Command::GenSolve { number, size })
            } else {
                None
            }
        }
        _ => None,
    }
}

/// The command of the words; None where they are none of the forms.
pub fn command_of(words: &[String]) -> Option<Command>
    ensures some { IfSome result (λ command. Asks command (map string_bytes words.now)) }
    ensures none { IfNone result ((command : Command) → ¬ Asks command (map string_bytes words.now)) }
{
    match words {
        [command, behind @ ..] => {
            if command.as_str() == "solve" {
                solve_of(behind)
            } else if command.as_str() == "check" {
                check_of(behind)
            } else if command.as_str() == "gen" {
                gen_of(behind)
            } else {
                None
            }
        }
        [] => None,
    }
}
