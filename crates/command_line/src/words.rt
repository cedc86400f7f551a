// The words that the program is called with.
ghost use Rattle.std.specs.Prelude.{◌≡◌, ◌↔◌, ◌≤◌, ◌<◌, ◌^◌, ◌%◌, ℕ, IsTrue, IfSome, IfNone, codes, decimal};
ghost use Rattle.site.specs.Geometry.{HasLimits};
ghost use Rattle.site.specs.declared.geometry.Geometry.{Geometry};
ghost use Rattle.command_line.specs.Words.{HasTrialSizes, IsNew, words_of};

use shell_text::{Line, read_decimal};
use site::Geometry;

/// The most pages of memory that a run may ask for.
pub const POOL_MAX: u32 = 4_096;

/// The most sets that a load may make.
pub const COUNT_MAX: u32 = 100_000;

/// The most pages that a database has.
pub const PAGES_MAX: u32 = 65_536;

const GROUPS_MAX: u32 = 16_384;

const BLOCKS_MAX: u32 = 1_048_576;

// A trial's sizes have smaller limits, since it keeps its devices in memory.
const TRIAL_PAGES_MAX: u32 = 1_024;

const TRIAL_GROUPS_MAX: u32 = 256;

const TRIAL_BLOCKS_MAX: u32 = 4_096;

fn is_new(word: &[u8]) -> bool
    ensures { IsTrue result ↔ (word.now ≡ codes "new") }
{
    word == b"new".as_slice()
}

/// The number that a word writes in decimal, within these bounds.
pub fn number_within(word: &[u8], least: u32, most: u32) -> Option<u32>
    requires { most < 10 ^ 9 }
    ensures number { IfSome result (λ n. (least ≤ n) × (n ≤ most) × (word.now ≡ decimal n)) }
    ensures none { IfNone result ((n : ℕ) → least ≤ n → n ≤ most → word.now ≡ decimal n → ⊥) }
{
    let Some(number) = read_decimal(word) else {
        return None;
    };
    if number < least {
        return None;
    }
    if number > most {
        return None;
    }
    Some(number)
}

// Whether a word is a number's decimal text.
fn writes(word: &[u8], number: u64) -> bool
    ensures { IsTrue result ↔ (word.now ≡ decimal number) }
{
    let mut text = Line::new();
    text.push_number(number);
    word == text.as_slice()
}

/// The number below 2^64 that a word writes in decimal.
pub fn number_in(word: &str) -> Option<u64>
    ensures number { IfSome result (λ n. word.now ≡ decimal n) }
    ensures none { IfNone result ((n : ℕ) → n < 2 ^ 64 → word.now ≡ decimal n → ⊥) }
{
    let number = match word.parse::<u64>() {
        Ok(number) => number,
        Err(_) => return None,
    };
    if !writes(word.as_bytes(), number) {
        return None;
    }
    Some(number)
}

/// The number of groups that a word writes: a multiple of four within the limits.
pub fn groups_in(word: &[u8]) -> Option<u32>
    ensures groups { IfSome result (λ n. (8 ≤ n) × (n ≤ 16384) × (n % 4 ≡ 0) × (word.now ≡ decimal n)) }
    ensures none { IfNone result ((n : ℕ) → 8 ≤ n → n ≤ 16384 → n % 4 ≡ 0 → word.now ≡ decimal n → ⊥) }
{
    groups_within(word, GROUPS_MAX)
}

// The multiple of four that a word writes, from 8 to this bound.
fn groups_within(word: &[u8], most: u32) -> Option<u32>
    requires { most < 10 ^ 9 }
    ensures groups { IfSome result (λ n. (8 ≤ n) × (n ≤ most) × (n % 4 ≡ 0) × (word.now ≡ decimal n)) }
    ensures none { IfNone result ((n : ℕ) → 8 ≤ n → n ≤ most → n % 4 ≡ 0 → word.now ≡ decimal n → ⊥) }
{
    let Some(groups) = number_within(word, 8, most) else {
        return None;
    };
    if groups % 4 != 0 {
        return None;
    }
    Some(groups)
}

/// The sizes of a trial that three words write, if they are within its limits.
pub fn trial_geometry_of(pages: &[u8], groups: &[u8], blocks: &[u8]) -> Option<Geometry>
    ensures sizes { IfSome result (λ g. HasTrialSizes g × (pages.now ≡ decimal g.pages)
        × (groups.now ≡ decimal g.groups)
        × (blocks.now ≡ decimal g.blocks)) }
    ensures none { IfNone result ((g : Geometry) → HasTrialSizes g → pages.now ≡ decimal g.pages
        → groups.now ≡ decimal g.groups → blocks.now ≡ decimal g.blocks → ⊥) }
{
    let Some(pages) = number_within(pages, 1, TRIAL_PAGES_MAX) else {
        return None;
    };
    let Some(groups) = groups_within(groups, TRIAL_GROUPS_MAX) else {
        return None;
    };
    let Some(blocks) = number_within(blocks, 16, TRIAL_BLOCKS_MAX) else {
        return None;
    };
    Some(Geometry {
        pages,
        groups,
        blocks,
    })
}

/// The sizes that three words write, if they are within the limits.
pub fn geometry_of(pages: &[u8], groups: &[u8], blocks: &[u8]) -> Option<Geometry>
    ensures sizes { IfSome result (λ g. HasLimits g × (pages.now ≡ decimal g.pages) × (groups.now ≡ decimal g.groups)
        × (blocks.now ≡ decimal g.blocks)) }
    ensures none { IfNone result ((g : Geometry) → HasLimits g → pages.now ≡ decimal g.pages
        → groups.now ≡ decimal g.groups → blocks.now ≡ decimal g.blocks → ⊥) }
{
    let Some(pages) = number_within(pages, 1, PAGES_MAX) else {
        return None;
    };
    let Some(groups) = groups_in(groups) else {
        return None;
    };
    let Some(blocks) = number_within(blocks, 16, BLOCKS_MAX) else {
        return None;
    };
    Some(Geometry {
        pages,
        groups,
        blocks,
    })
}

/// The sizes of `new PAGES GROUPS BLOCKS`; None for all other words. It takes no memory.
pub fn sizes(words: &[String]) -> Option<Geometry>
    ensures new { IfSome result (λ g. IsNew (words_of words.now) g) }
    ensures none { IfNone result ((g : Geometry) → IsNew (words_of words.now) g → ⊥) }
{
    let [new, pages, groups, blocks] = words else {
        return None;
    };
    if !is_new(new.as_bytes()) {
        return None;
    }
    geometry_of(pages.as_bytes(), groups.as_bytes(), blocks.as_bytes())
}
