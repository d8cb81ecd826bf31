//! What objects of some kinds have and others have not.
ghost use Rattle.std.specs.Prelude.{◌≡◌};
ghost use Rattle.scene_defs.specs.Row.{has_feature};

use gui_base::Kind;
use gui_kinds::facts;
use scene_defs::Feature;

/// Whether objects of a kind have a feature.
pub fn has_feature(feature: Feature, kind: Kind) -> bool
    ensures { result ≡ has_feature feature kind }
{
    match feature {
        Feature::Text => facts(kind).text,
        Feature::Value => facts(kind).value,
        Feature::Picture => facts(kind).picture,
    }
}
