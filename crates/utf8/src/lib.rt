// UTF-8 by RFC 3629: one test, an octet at a time.
#![tactic(auto)]

ghost use Rattle.std.specs.Prelude.{◌≡◌, List, [], ◌∷◌, ℕ, ◌<◌, ◌≤◌, length, get_or};
ghost use Rattle.utf8.specs.Utf8.{from, valid};
ghost use Rattle.utf8.specs.Steps.{due, valid_after};

// What may follow a first octet, by the alternatives of UTF8-char.
fn lead_of(b: u8) -> Option<(u8, u8, u8)>
    ensures { (s : List ℕ) → valid_after result s ≡ from (b ∷ s) [] }
{
    // before the others, since most octets of a text are such: with a `match` alone a text with umlauts takes twice as long (measured)
    if b <= 0x7F {
        return Some((0, 0x80, 0xBF));
    }
    match b {
        0xC2..=0xDF => Some((1, 0x80, 0xBF)),
        0xE0 => Some((2, 0xA0, 0xBF)),
        0xE1..=0xEC => Some((2, 0x80, 0xBF)),
        0xED => Some((2, 0x80, 0x9F)),
        0xEE..=0xEF => Some((2, 0x80, 0xBF)),
        0xF0 => Some((3, 0x90, 0xBF)),
        0xF1..=0xF3 => Some((3, 0x80, 0xBF)),
        0xF4 => Some((3, 0x80, 0x8F)),
        _ => None,
    }
}

// What may follow one octet more.
fn step_of(more: u8, low: u8, high: u8, b: u8) -> Option<(u8, u8, u8)>
    ensures { (s : List ℕ) → valid_after result s ≡ from (b ∷ s) (due more low high) }
{
    if more == 0 {
        return lead_of(b);
    }
    if b < low {
        return None;
    }
    if high < b {
        return None;
    }
    Some((more - 1, 0x80, 0xBF))
}

// No octet is higher than the answer.
fn highest(s: &[u8]) -> u8
    ensures { (k : ℕ) → k < length s.now → get_or s.now k 0 ≤ result }
{
    let mut top: u8 = 0;
    for &b in s {
        top = top.max(b);
    }
    top
}

// Whether the octets are UTF-8, one after the other. Not inlined: how the code around it lies changed its time by a third (measured).
#[inline(never)]
fn follows_rules(s: &[u8]) -> bool
    ensures { result ≡ valid s.now }
{
    let mut more: u8 = 0;
    let mut low: u8 = 0;
    let mut high: u8 = 0;
    for &b in s {
        let Some((m, l, h)) = step_of(more, low, high, b) else {
            return false;
        };
        more = m;
        low = l;
        high = h;
    }
    more == 0
}

// Whether the octets are UTF-8. The common text lies below 0x80, and `highest` sees that fast.
pub fn is_utf8(s: &[u8]) -> bool
    ensures { result ≡ valid s.now }
{
    highest(s) < 0x80 || follows_rules(s)
}
