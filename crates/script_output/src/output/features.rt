//! What is printed for the features that a command returns.
ghost use Rattle.std.specs.Prelude.{◌≡◌, ◌++◌, OnOk};
ghost use Rattle.script_output.specs.Printed.{features_text, spaced_features};

use super::Output;
use crate::names::feature_name;
use mm_meta::Meta;
use mm_types::FeatureNo;
use script_lines::grammar::SPACE;
use std::alloc::AllocError;

impl Output {
    /// Adds a list of features by their names: `[name favourite]`.
    pub fn features(&mut self, meta: &Meta, features: &[FeatureNo]) -> Result<(), AllocError>
        ensures ok { OnOk result (self.new ≡ self.old ++ features_text meta.now features.now) }
    {
        match features {
            [] => self.text("[]"),
            [first, others @ ..] => {
                self.text("[")?;
                self.text(feature_name(meta, *first))?;
                self.spaced_features(meta, others)?;
                self.text("]")
            }
        }
    }

    fn spaced_features(&mut self, meta: &Meta, features: &[FeatureNo]) -> Result<(), AllocError>
        ensures ok { OnOk result (self.new ≡ self.old ++ spaced_features meta.now features.now) }
    {
        for feature in features {
            self.byte(SPACE)?;
            self.text(feature_name(meta, *feature))?;
        }
        Ok(())
    }
}
