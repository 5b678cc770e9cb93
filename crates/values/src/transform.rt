// Transforms.
ghost use Rattle.std.specs.Prelude.{◌≡◌};
ghost use Rattle.values.specs.Settings.{same_transform, finite_transform};

use crate::setting::Setting;
use geometry::numbers::all_finite;

/// An affine map of the plane: the columns of its linear part, and where it takes the origin.
#[derive(Clone, Copy, Debug, PartialEq)]
#[repr(C)]
pub struct Transform {
    pub matrix: [f32; 4],
    pub translation: [f32; 2],
}

impl Transform {
    /// Whether each of its numbers is finite.
    pub fn is_finite(self) -> bool
        ensures { result ≡ finite_transform self }
    {
        all_finite(&self.matrix) && all_finite(&self.translation)
    }
}

impl Setting for Transform {
    ghost same = { same_transform };

    #[tactic(auto, unfolding(geometry::specs::Numbers::same_numbers))]
    fn is_same(self, other: Transform) -> bool {
        self == other
    }
}
