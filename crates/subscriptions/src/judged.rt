// A sheet that was judged, lent with the places of its subscriptions.
ghost use Rattle.std.specs.Prelude.{◌≡◌, ◌≤◌, ◌<◌, true, false, length, MatchResult};
ghost use Rattle.std.proofs.Props.{props};
ghost use Rattle.meaning.specs.Numbers.{most_patterns};
ghost use Rattle.meaning.specs.Calls.{is_subscription, subscription};
ghost use Rattle.meaning.specs.declared.Refusal.TheVariants.{NotThere};
ghost use Rattle.shapes.specs.Shapes.{pattern_of, WellFormed};
ghost use Rattle.reading.specs.SheetPlaces.{sheet_at};
ghost use Rattle.subscriptions.specs.Taken.{subscriptions_lent};
ghost use Rattle.subscriptions.specs.Subscribed.{SubscriptionsStand, forest_coded};

use crate::{Subscriptions, pattern_at};
use meaning::Refusal;
use shapes::Pattern;

// A sheet that was judged: its bytes, and where each of its subscriptions stands in them.
#[derive(Clone, Copy)]
pub struct JudgedSheet<'a> {
    pub bytes: &'a [u8],
    pub places: &'a [usize],
    pub ghost stand: { SubscriptionsStand bytes.now (subscriptions_lent (length places.now) places.now) } by { Prim.hlevel (props, forest_coded) },
}

impl<'a> JudgedSheet<'a> {
    // How many subscriptions it has.
    pub fn count(&self) -> usize
        ensures { (result ≡ length (sheet_at self.now.bytes.now).patterns) × (result ≤ most_patterns) }
    {
        self.places.len()
    }

    // The pattern of subscription i.
    pub fn pattern(&self, i: usize) -> Pattern
        requires { i < length (sheet_at self.now.bytes.now).patterns }
        ensures { (pattern_of result ≡ subscription (sheet_at self.now.bytes.now) i) × WellFormed result }
    {
        pattern_at(self.bytes, self.places[i])
    }

    // The pattern of subscription i, where the sheet has one.
    pub fn asked(&self, i: u64) -> Result<Pattern, Refusal>
        ensures { MatchResult result
            (λ p. (is_subscription (sheet_at self.now.bytes.now) i ≡ true) × (pattern_of p ≡ subscription (sheet_at self.now.bytes.now) i) × WellFormed p)
            (λ why. (is_subscription (sheet_at self.now.bytes.now) i ≡ false) × (why ≡ NotThere)) }
    {
        if self.count() as u64 <= i {
            return Err(Refusal::NotThere);
        }
        Ok(self.pattern(i as usize))
    }
}

impl Subscriptions {
    // The sheet whose subscriptions they are.
    pub fn beside<'a>(&'a self, s: &'a [u8]) -> JudgedSheet<'a>
        requires { SubscriptionsStand s.now self.now }
        ensures { result.bytes.now ≡ s.now }
    {
        JudgedSheet {
            bytes: s,
            places: &self.places[..self.count],
        }
    }
}
