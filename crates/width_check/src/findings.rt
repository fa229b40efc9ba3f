//! The first span at which something is wrong, for each cause.

ghost use Rattle.std.specs.Prelude.{◌≡◌, ◌^◌, not, ◌||◌, ◌==◌, nat_lt, nat_le, min, if◌then◌else◌};
ghost use Rattle.width_check.specs.Walk as walk;

use chp_base::Span;

/// For each cause the first span that was found: a name that isn't declared, a name of the wrong kind, an end of a
/// channel that is the environment's, bits that a variable doesn't have, no width where one is expected, a wrong width
/// of an expression, a wrong width of a receive's variable, and a number that doesn't fit.
#[derive(Clone, Copy)]
pub struct Findings {
    pub undeclared: Option<Span>,
    pub wrong_kind: Option<Span>,
    pub direction: Option<Span>,
    pub slice: Option<Span>,
    pub widthless: Option<Span>,
    pub leaf: Option<Span>,
    pub target: Option<Span>,
    pub number: Option<Span>,
}

/// Whether a span comes before another: it begins earlier, or at the same byte and ends later.
fn is_earlier(place: Span, than: Span) -> bool
    ensures { result ≡ walk.is_earlier place than }
{
    place.from < than.from || (place.from == than.from && than.to < place.to)
}

/// The first span found so far, after one more was found.
pub fn earlier(first: Option<Span>, place: Span) -> Option<Span>
    ensures { result ≡ walk.earlier first place }
{
    match first {
        Some(found) => {
            if is_earlier(place, found) {
                Some(place)
            } else {
                Some(found)
            }
        }
        None => Some(place),
    }
}

/// The same if something is wrong at the further span; else the first span found so far.
pub fn earlier_if(wrong: bool, first: Option<Span>, place: Span) -> Option<Span>
    ensures { result ≡ (if wrong then walk.earlier first place else first) }
{
    if wrong { earlier(first, place) } else { first }
}

/// Whether a number has more bits than the expected width; a width above 64 counts as 65.
pub fn is_wide(value: u64, wanted: u8) -> bool
    ensures { result ≡ nat_le (2 ^ walk.capped_width wanted) value }
{
    if wanted < 64 {
        1 << wanted <= value
    } else {
        false
    }
}

impl Findings {
    /// Records the span of an expression if its own width exceeds 64 or isn't the expected one.
    pub fn with_leaf(mut self, own: u8, wanted: u8, place: Span) -> Findings
        ensures { result ≡ walk.with_leaf self own wanted place }
    {
        self.leaf = earlier_if(64 < own || own != wanted, self.leaf, place);
        self
    }

    /// Records the span of a number if the number doesn't fit the expected width.
    pub fn with_number(mut self, value: u64, wanted: u8, place: Span) -> Findings
        ensures { result ≡ record self {
          number =
              (if nat_le (2 ^ walk.capped_width wanted) value then walk.earlier self.number place else self.number);
        } }
    {
        self.number = earlier_if(is_wide(value, wanted), self.number, place);
        self
    }
}
