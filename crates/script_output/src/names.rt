//! The names of features and of literals, as they are printed, and the enumeration that is the type of a feature.
ghost use Rattle.std.specs.Prelude.{◌≡◌};
ghost use Rattle.script_output.specs.Names as n;

use mm_meta::Meta;
use mm_types::{ClassNo, DataType, FeatureNo, Kind, Value};

/// The name of the feature with a given number; `contents`, the only feature of resources, if no feature of the metamodel has the number.
pub fn feature_name(meta: &Meta, feature: FeatureNo) -> &str
    ensures { result.now ≡ n.feature_name meta.now feature }
{
    match meta.feature(feature) {
        Some(feature) => feature.name.as_str(),
        None => "contents",
    }
}

/// The enumeration that is a feature's type, by its index; `None` if the type is no enumeration, or if no feature has the number.
pub fn enum_of(meta: &Meta, feature: FeatureNo) -> Option<u32>
    ensures { result ≡ n.enum_of meta.now feature }
{
    enum_of_kind(&meta.feature(feature)?.kind)
}

fn enum_of_kind(kind: &Kind) -> Option<u32>
    ensures { result ≡ n.enum_of_kind kind.now }
{
    match kind {
        Kind::Attribute { value_type, .. } => enum_of_type(*value_type),
        Kind::Reference { .. } => None,
    }
}

fn enum_of_type(value_type: DataType) -> Option<u32>
    ensures { result ≡ n.enum_of_type value_type }
{
    match value_type {
        DataType::Enum(e) => Some(e),
        DataType::EString | DataType::EInt | DataType::ELong | DataType::EBoolean => None,
    }
}

/// The name of a feature's value, if the value is a literal of the feature's type; empty for any other value.
pub fn literal_name<'a>(meta: &'a Meta, feature: FeatureNo, value: &Value) -> &'a str
    ensures { result.now ≡ n.literal_name meta.now feature value.now }
{
    match value {
        Value::Literal(index) => meta.literal_text(feature, *index),
        _ => "",
    }
}
