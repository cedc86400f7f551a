// What a line of a trace says.
ghost use Rattle.std.specs.Prelude.{◌≡◌, ◌++◌, List, ℕ, Bool, IfSome, IfNone};
ghost use Rattle.trace_report.specs.Traces.{letter, IsTouch};
ghost use Rattle.trace_report.specs.Hearing.{IsWrong};

use shell_text::read_decimal;

/// The greatest number of a page.
const PAGE_MAX: u32 = 65_535;

// Whether a line asks for a change, and the text of its page.
fn split_letter(line: &[u8]) -> Option<(bool, &[u8])>
    ensures parts { IfSome result (λ parts. line.now ≡ letter parts.0 ++ parts.1.now) }
    ensures none { IfNone result ((change : Bool) → (page : List ℕ) → line.now ≡ letter change ++ page → ⊥) }
{
    match line {
        [b'w', b' ', page @ ..] => Some((true, page)),
        [b'r', b' ', page @ ..] => Some((false, page)),
        _ => None,
    }
}

/// The page that a line touches, and whether it changes it.
pub fn read_touch(line: &[u8]) -> Option<(u32, bool)>
    ensures touch { IfSome result (λ touch. IsTouch line.now touch) }
    ensures none { IfNone result (IsWrong line.now) }
{
    let Some((change, page)) = split_letter(line) else {
        return None;
    };
    let Some(page) = read_decimal(page) else {
        return None;
    };
    if page > PAGE_MAX {
        return None;
    }
    Some((page, change))
}
