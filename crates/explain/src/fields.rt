//! The keys of the objects of a metamodel document, as `docs/METAMODEL.md` lists them, and keys that are written by mistake.
use mm_types::limits;

/// How the value of a key is written.
pub enum Sort {
    /// A text of at most this number of bytes.
    Text(usize),
    /// `true` or `false`.
    Flag,
    /// A whole number of 32 bits, signed.
    Number,
    /// A whole number of 64 bits, signed.
    Long,
    /// `"attribute"` or `"reference"`.
    Kind,
    /// An array of at most this number of texts, each of at most as many bytes as a name may have.
    Texts(usize),
    /// An array of at most this number of objects.
    Objects(usize),
    /// An object.
    Object,
}

/// A key of an object.
pub struct Field {
    /// The name of the key.
    pub key: &'static str,
    /// How the value of the key is written.
    pub sort: Sort,
    /// Whether an object must have the key.
    pub is_required: bool,
}

/// The keys of a document.
pub(crate) const DOCUMENT: [Field; 2] = [ENUMS, CLASSES];

/// The keys of an enumeration.
pub(crate) const ENUMERATION: [Field; 2] = [NAME, LITERALS];

/// The keys of a class.
pub(crate) const CLASS: [Field; 4] = [NAME, ABSTRACT, SUPERS, FEATURES];

/// The keys of an attribute.
pub(crate) const ATTRIBUTE: [Field; 8] = [
    NAME, KIND, TYPE, LOWER, UPPER, UNIQUE, UNSETTABLE, DEFAULT,
];

/// The keys of a reference.
pub(crate) const REFERENCE: [Field; 7] = [NAME, KIND, TYPE, LOWER, UPPER, CONTAINMENT, OPPOSITE];

/// The keys of attributes together with the keys of references, for a feature that lacks a kind, or whose kind is neither `attribute` nor
/// `reference`.
pub(crate) const FEATURE: [Field; 10] = [
    NAME,
    KIND,
    TYPE,
    LOWER,
    UPPER,
    UNIQUE,
    UNSETTABLE,
    DEFAULT,
    CONTAINMENT,
    OPPOSITE,
];

const ENUMS: Field = Field {
    key: "enums",
    sort: Sort::Objects(limits::ENUMS),
    is_required: false,
};

const CLASSES: Field = Field {
    key: "classes",
    sort: Sort::Objects(limits::CLASSES),
    is_required: true,
};

const LITERALS: Field = Field {
    key: "literals",
    sort: Sort::Texts(limits::LITERALS),
    is_required: true,
};

const ABSTRACT: Field = Field {
    key: "abstract",
    sort: Sort::Flag,
    is_required: false,
};

const SUPERS: Field = Field {
    key: "supers",
    sort: Sort::Texts(limits::SUPERS),
    is_required: false,
};

const FEATURES: Field = Field {
    key: "features",
    sort: Sort::Objects(limits::OWN_FEATURES),
    is_required: false,
};

const NAME: Field = Field {
    key: "name",
    sort: Sort::Text(limits::NAME_BYTES),
    is_required: true,
};

const KIND: Field = Field {
    key: "kind",
    sort: Sort::Kind,
    is_required: true,
};

const TYPE: Field = Field {
    key: "type",
    sort: Sort::Text(limits::NAME_BYTES),
    is_required: true,
};

const LOWER: Field = Field {
    key: "lower",
    sort: Sort::Number,
    is_required: false,
};

const UPPER: Field = Field {
    key: "upper",
    sort: Sort::Number,
    is_required: false,
};

const UNIQUE: Field = Field {
    key: "unique",
    sort: Sort::Flag,
    is_required: false,
};

const UNSETTABLE: Field = Field {
    key: "unsettable",
    sort: Sort::Flag,
    is_required: false,
};

const DEFAULT: Field = Field {
    key: "default",
    sort: Sort::Text(limits::TEXT_BYTES),
    is_required: false,
};

const CONTAINMENT: Field = Field {
    key: "containment",
    sort: Sort::Flag,
    is_required: false,
};

const OPPOSITE: Field = Field {
    key: "opposite",
    sort: Sort::Text(limits::NAME_BYTES),
    is_required: false,
};

/// A word, and the hint or the advice about this word.
pub(crate) type Hint = (&'static str, &'static str);

/// Hints for keys that are not allowed in the object that has them: keys of Ecore and of similar formats, and keys of other objects of a
/// metamodel document.
pub(crate) const MISPLACED: [Hint; 41] = [
    ("upperBound", "a feature has \"upper\""),
    ("lowerBound", "a feature has \"lower\""),
    (
        "many",
        "a feature has \"upper\", and -1 stands for any number",
    ),
    ("required", "a feature has \"lower\""),
    ("eType", "a feature has \"type\""),
    ("eOpposite", "a reference has \"opposite\""),
    ("xsi:type", "a feature has \"kind\""),
    ("eClass", "a feature has \"kind\""),
    ("defaultValue", "an attribute has \"default\""),
    ("defaultValueLiteral", "an attribute has \"default\""),
    ("eSuperTypes", "a class has \"supers\""),
    ("eSuperType", "a class has \"supers\""),
    ("superTypes", "a class has \"supers\""),
    ("extends", "a class has \"supers\""),
    ("eStructuralFeatures", "a class has \"features\""),
    ("attributes", "a class has \"features\""),
    ("references", "a class has \"features\""),
    ("isAbstract", "a class has \"abstract\""),
    ("interface", "a class has \"abstract\""),
    ("eClassifiers", "a metamodel has \"classes\" and \"enums\""),
    ("eLiterals", "an enumeration has \"literals\""),
    (
        "nsURI",
        "a metamodel has no URI and no prefix; leave it out",
    ),
    (
        "nsPrefix",
        "a metamodel has no URI and no prefix; leave it out",
    ),
    ("ordered", "every list is ordered; leave it out"),
    ("id", "no attribute is an ID; leave it out"),
    ("iD", "no attribute is an ID; leave it out"),
    ("transient", "no feature is transient; leave it out"),
    ("derived", "no feature is derived; leave it out"),
    ("volatile", "no feature is volatile; leave it out"),
    ("changeable", "every feature is changeable; leave it out"),
    (
        "resolveProxies",
        "a proxy stays until it is resolved; leave it out",
    ),
    ("eKeys", "references go by position; leave it out"),
    ("eOperations", "a class has no operations; leave it out"),
    (
        "eAnnotations",
        "a metamodel has no annotations; leave it out",
    ),
    (
        "unique",
        "only an attribute has it; the list of a reference never repeats an object",
    ),
    ("unsettable", "only an attribute has it"),
    ("default", "only an attribute has it"),
    ("containment", "only a reference has it"),
    ("opposite", "only a reference has it"),
    ("name", "a metamodel has no name; leave it out"),
    ("enums", "only the document has it"),
];

/// For some keys, a text that is added to a line of the explanation. The text is added to a line which says that the value under the key,
/// or an item of the array under the key, is not of the required kind. It is not added to a line about the number of items.
pub(crate) const ADVICE: [Hint; 3] = [
    ("upper", "; -1 stands for any number"),
    (
        "default",
        "; a default is a text whatever the type, as \"100\"",
    ),
    (
        "literals",
        "; each literal is a name, and its value is its position",
    ),
];

/// The text that a table has for a given word.
pub(crate) fn advice_in(table: &[Hint], word: &str) -> Option<&'static str> {
    for field in table {
        if field.0 == word {
            return Some(field.1);
        }
    }
    None
}
