// The rules of a word, and which of them is broken. In 01's words a ground is a rule that a listing
// breaks.
ghost use Rattle.std.specs.Prelude.{◌+◌, ◌*◌, ◌≡◌, cond, get_or};
ghost use Rattle.sheets.specs.Grounds.{rule_number, answer_of, of_listing};
ghost use Rattle.sheets.specs.internal.Words.{word_of};
ghost use Rattle.sheets.specs.internal.Tests.{bad_blank_word, bad_routine_word, bad_entry_word, bad_word};

use super::{entry_of, word_at};

// The rules of admission by their numbers.
#[derive(Clone, Copy)]
pub enum Rule {
    BankSizes = 1,
    SheetSize = 2,
    ListSize = 3,
    Blank = 4,
    Routine = 5,
    Start = 6,
    Entry = 7,
    Depth = 8,
    JumpByRegister = 9,
    UnmarkedV = 10,
    PopOrSwap = 11,
    Return = 12,
    LastAddress = 13,
    Callee = 14,
    Need = 15,
    Successor = 16,
}

impl From<Rule> for u8 {
    ghost from_gives = { λ k n. n ≡ rule_number k };

    // A rule's number.
    fn from(rule: Rule) -> u8 {
        rule as u8
    }
}

// A broken rule, and the address or routine at which it is broken; 0 for a rule of the whole
// listing.
#[derive(Clone, Copy)]
pub struct Ground {
    pub rule: Rule,
    pub place: u8,
}

// A rule that no place keeps or breaks alone.
impl From<Rule> for Ground {
    ghost from_gives = { λ k g. g ≡ of_listing k };

    fn from(rule: Rule) -> Ground {
        Ground { rule, place: 0 }
    }
}

// number + 256 × place of a broken rule, or 0.
#[tactic(auto, unfolding(crate::specs::Grounds::answer_of))]
pub fn answer(judged: Result<(), Ground>) -> u32
    ensures { result ≡ answer_of judged }
{
    match judged {
        Ok(()) => 0,
        Err(ground) => u32::from(u8::from(ground.rule)) + 256 * u32::from(ground.place),
    }
}

// A rule at a place, where it is broken.
#[tactic(auto, unfolding(crate::specs::Grounds::answer_of))]
pub fn refuse_if(broken: bool, rule: Rule, place: u8) -> Result<(), Ground>
    ensures { answer_of result ≡ cond broken (rule_number rule + 256 * place) 0 }
{
    if broken {
        Err(Ground { rule, place })
    } else {
        Ok(())
    }
}

// 4 at an address.
pub fn blank_ground(sheet: &[u8], a: u8) -> Result<(), Ground>
    ensures { answer_of result ≡ cond (bad_blank_word (word_of sheet.now a)) (4 + 256 * a) 0 }
{
    let w = word_at(sheet, a);
    refuse_if(!w.described & !w.blank, Rule::Blank, a)
}

// 5 at an address.
pub fn routine_ground(sheet: &[u8], routines: usize, a: u8) -> Result<(), Ground>
    ensures { answer_of result ≡ cond (bad_routine_word routines (word_of sheet.now a)) (5 + 256 * a) 0 }
{
    let w = word_at(sheet, a);
    let unlisted = w.described & (routines <= usize::from(w.routine));
    refuse_if(unlisted, Rule::Routine, a)
}

// 7 of a routine.
pub fn entry_ground(sheet: &[u8], list: &[u8], routine: u8) -> Result<(), Ground>
    ensures { answer_of result ≡ cond (bad_entry_word routine (word_of sheet.now (get_or list.now (2 * routine) 0))) (7 + 256 * routine) 0 }
{
    let w = word_at(sheet, entry_of(list, routine));
    let bad = !w.described | ((w.routine != routine) | ((0 < w.depth) | w.marked));
    refuse_if(bad, Rule::Entry, routine)
}

// Whether a successor breaks 16, in a routine, at a depth, where V may be marked or not.
pub fn bad_successor(sheet: &[u8], to: u8, routine: u8, depth: u16, mark: bool) -> bool
    ensures { result ≡ bad_word (word_of sheet.now to) routine depth mark }
{
    let w = word_at(sheet, to);
    !w.described | ((w.routine != routine) | ((u16::from(w.depth) != depth) | (w.marked & !mark)))
}
