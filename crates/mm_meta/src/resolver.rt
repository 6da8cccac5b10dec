//! The names of a metamodel document are resolved into numbers.
ghost use Rattle.std.specs.Prelude.{◌≡◌, ◌<◌, map, IfOk, IsTrue, position, Option, ◌-◌};
ghost use Rattle.mm_types.specs.Raw.{RawMetamodel, is_within_limits};
ghost use Rattle.mm_types.specs.Resolved.{class_named, data_type_named, enum_named, literal_named, literal_value, own_named, own_position, own_of};

use crate::literals::{boolean_value, int_value};
use crate::name_table::{NameTable, position_at};
use crate::tables::{literal_tables, own_numbers, own_tables};
use mm_types::integers::integer_of;
use mm_types::{
    ClassNo, DataType, Enumeration, FeatureNo, Kind, RawClass, RawFeature, RawKind, RawMeta, Seq,
    Text, Value,
};
use std::alloc::{AllocError, Global};
use std::marker::Model;

/// A metamodel document with tables that find its names.
#[derive(Drop)]
pub struct Resolver<'a> {
    enums: &'a [Enumeration],
    classes: &'a [RawClass],
    enum_table: NameTable,
    class_table: NameTable,
    literal_tables: Vec<NameTable>,
    own_tables: Vec<NameTable>,
    own: Vec<Seq<u32>>,
}

impl<'a> Model for Resolver<'a> {
    ghost use Rattle.mm_types.specs.Raw.{RawMetamodel};
    ghost use Rattle.mm_meta.specs.Resolver.{IsResolver, resolves};

    ghost Value = { RawMetamodel };

    ghost view = { resolves };

    ghost invariant = { IsResolver };
}

impl<'a> Resolver<'a> {
    /// The resolver of the metamodel document `raw`, which may be ill-formed. Fails only if memory is refused.
    pub fn new(alloc: Global, raw: &'a RawMeta) -> Result<Self, AllocError>
        ensures { IfOk result (λ r. r ≡ raw.now) }
    {
        let enums = raw.enums();
        let classes = raw.classes();
        Ok(Resolver {
            enums,
            classes,
            enum_table: NameTable::of(alloc, enums)?,
            class_table: NameTable::of(alloc, classes)?,
            literal_tables: literal_tables(alloc, enums)?,
            own_tables: own_tables(alloc, classes)?,
            own: own_numbers(alloc, classes)?,
        })
    }

    /// The number of the first class with a given name; `None` if no class has the name.
    pub fn class(&self, name: &str) -> Option<usize>
        ensures { result ≡ class_named self.now.classes name.now }
    {
        self.class_table.position(name)
    }

    /// The position of the first enumeration with a given name; `None` if no enumeration has the name.
    pub fn enumeration(&self, name: &str) -> Option<usize>
        ensures { result ≡ enum_named self.now.enums name.now }
    {
        self.enum_table.position(name)
    }

    /// The data type with a given name: EString, EInt, ELong, EBoolean, or else the first enumeration with the name; `None` if no data type
    /// has the name.
    pub fn data_type(&self, name: &str) -> Option<DataType>
        ensures { result ≡ data_type_named self.now.enums name.now }
    {
        if name == "EString" {
            return Some(DataType::EString);
        }
        if name == "EInt" {
            return Some(DataType::EInt);
        }
        if name == "ELong" {
            return Some(DataType::ELong);
        }
        if name == "EBoolean" {
            return Some(DataType::EBoolean);
        }
        let e = self.enum_table.position(name)?;
        Some(DataType::Enum(e as u32))
    }

    /// The index of the first literal with a given name in the enumeration at the position `e`; `None` if there is no such literal.
    fn literal(&self, e: u32, name: &str) -> Option<u32>
        ensures { result ≡ literal_named self.now.enums e name.now }
    {
        let index = position_at(self.literal_tables.as_slice(), e as usize, name)?;
        Some(index as u32)
    }

    /// The value that a text writes as a literal of a type; `None` if the text is no literal of the type. Fails only if memory is refused.
    pub fn literal_value(
        &self,
        alloc: Global,
        t: DataType,
        text: &str,
    ) -> Result<Option<Value>, AllocError>
        ensures { IfOk result (λ v. v ≡ literal_value self.now.enums t text.now) }
    {
        match t {
            DataType::EString => Ok(Some(Value::Text(Text::from_str(alloc, text)?))),
            DataType::EInt => Ok(int_value(text)),
            DataType::ELong => Ok(integer_of(text).map(|n| Value::Int(n))),
            DataType::EBoolean => Ok(boolean_value(text)),
            DataType::Enum(e) => Ok(self.literal(e, text).map(|index| Value::Literal(index))),
        }
    }

    /// The index of the first feature with a given name among the features that a class declares; `None` if there is no such feature.
    pub fn own_position(&self, class: usize, name: &str) -> Option<usize>
        ensures { result ≡ own_position self.now.classes class name.now }
    {
        position_at(self.own_tables.as_slice(), class, name)
    }

    /// The number of the first feature that a class declares under a given name; `None` if there is no such feature.
    pub fn own_named(&self, class: usize, name: &str) -> Option<u32>
        ensures { result ≡ own_named self.now.classes class name.now }
    {
        let index = self.own_position(class, name)?;
        self.own.get(class)?.as_slice().get(index).copied()
    }

    /// The enumerations of the document.
    pub fn enums(&self) -> &'a [Enumeration]
        ensures { result.now ≡ self.now.enums }
    {
        self.enums
    }

    /// The classes of the document.
    pub fn classes(&self) -> &'a [RawClass]
        ensures classes { result.now ≡ self.now.classes }
        ensures fits { IsTrue (is_within_limits self.now) }
    {
        self.classes
    }

    /// For each class, the numbers of the features that it declares.
    pub fn own(&self) -> &[Seq<u32>]
        ensures value { result.now ≡ own_of self.now.classes }
        ensures fits { IsTrue (is_within_limits self.now) }
    {
        self.own.as_slice()
    }
}
