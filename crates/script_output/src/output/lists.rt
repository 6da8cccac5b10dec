//! What is printed for the values of a many-valued feature.
ghost use Rattle.std.specs.Prelude.{◌≡◌, ◌++◌, OnOk};
ghost use Rattle.script_output.specs.Printed.{feature_value_text, list_text, spaced_values};

use super::Output;
use crate::names::literal_name;
use mm_meta::Meta;
use mm_types::{FeatureNo, Value};
use script_lines::grammar::SPACE;
use std::alloc::AllocError;

impl Output {
    /// Adds the values of a feature: `["a" "b"]`, `[:NOVEL]`, `[#1 #2]`, or `[]` if there are none.
    pub fn values(
        &mut self,
        meta: &Meta,
        feature: FeatureNo,
        values: &[Value],
    ) -> Result<(), AllocError>
        ensures ok { OnOk result (self.new ≡ self.old ++ list_text meta.now feature values.now) }
    {
        match values {
            [] => self.text("[]"),
            [first, others @ ..] => {
                self.text("[")?;
                self.feature_value(meta, feature, first)?;
                self.spaced_values(meta, feature, others)?;
                self.text("]")
            }
        }
    }

    fn spaced_values(
        &mut self,
        meta: &Meta,
        feature: FeatureNo,
        values: &[Value],
    ) -> Result<(), AllocError>
        ensures ok { OnOk result (self.new ≡ self.old ++ spaced_values meta.now feature values.now) }
    {
        for value in values {
            self.byte(SPACE)?;
            self.feature_value(meta, feature, value)?;
        }
        Ok(())
    }

    fn feature_value(
        &mut self,
        meta: &Meta,
        feature: FeatureNo,
        value: &Value,
    ) -> Result<(), AllocError>
        ensures ok { OnOk result (self.new ≡ self.old ++ feature_value_text meta.now feature value.now) }
    {
        self.value(value, literal_name(meta, feature, value))
    }
}
