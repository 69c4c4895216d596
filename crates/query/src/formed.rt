// The check of two lent maps.
ghost use Rattle.std.specs.Prelude.{◌≡◌, true, ◌&&◌};
ghost use Rattle.key.specs.Range.{half_open};
ghost use Rattle.outcomes.specs.Stored.{Sound};
ghost use Rattle.outcomes.specs.Outcomes.{formed};

use key::RangeKind;
use outcomes::Stored;
use store::check::well_formed;

// Whether two lent maps are well formed: the first is checked, then the second.
pub fn are_formed(a: &Stored, b: &Stored) -> bool
    ensures value { result ≡ (formed half_open a.now && formed half_open b.now) }
    ensures sound { result ≡ true → Sound half_open a.now × Sound half_open b.now }
{
    well_formed(RangeKind::HalfOpen, a) && well_formed(RangeKind::HalfOpen, b)
}
