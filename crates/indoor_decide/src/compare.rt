// Whether the file is newer than what the receiver reports (02 a).
ghost use Rattle.std.specs.Prelude.{◌≡◌};
ghost use Rattle.indoor_rules.specs.Newer.{newer_of};

use indoor_state::plan::Release;
use wire::response::Identity;

// Of two versions the first place that differs decides (001 section 5.3.1).
#[tactic(auto, using(basis::specs::Pick::tests), unfolding(indoor_rules::specs::Newer::newer_of, indoor_rules::specs::Newer::places_of, indoor_rules::specs::Newer::later_of))]
pub(crate) fn newer(release: Release, reported: Identity) -> bool
    ensures { result ≡ newer_of release reported }
{
    release.vendor == reported.vendor
        && release.product == reported.product
        && reported.versions < release.versions
}
