//! The tables that a resolver is made of. A `Meta` has the tables of literals too.
ghost use Rattle.std.specs.Prelude.{◌≡◌, ◌+◌, ◌<◌, ◌^◌, ◌≤◌, IfOk, IsTrue, length, map};
ghost use Rattle.std.specs.List.{list_all, range_with_len};
ghost use Rattle.mm_types.specs.Raw.{class_fits};
ghost use Rattle.mm_types.specs.Resolved.{own_of};
ghost use Rattle.mm_meta.specs.NameTable.{AreTablesOf};

use crate::name_table::NameTable;
use mm_types::{Enumeration, RawClass, Seq};
use std::alloc::{AllocError, Global};

/// For each class, the table of the names of the features that the class declares.
pub fn own_tables(alloc: Global, classes: &[RawClass]) -> Result<Vec<NameTable>, AllocError>
    ensures { IfOk result (λ v. AreTablesOf v.items (map (λ c. map (λ f. f.name) c.features) classes.now)) }
{
    let mut tables = Vec::new(alloc);
    'classes: for class in classes {
        tables.push(NameTable::of(alloc, class.features.as_slice())?)?;
    }
    Ok(tables)
}

/// For each enumeration, the table of its literals.
pub fn literal_tables(alloc: Global, enums: &[Enumeration]) -> Result<Vec<NameTable>, AllocError>
    ensures { IfOk result (λ v. AreTablesOf v.items (map (λ e. e.literals) enums.now)) }
{
    let mut tables = Vec::new(alloc);
    'enums: for e in enums {
        tables.push(NameTable::of(alloc, e.literals.as_slice())?)?;
    }
    Ok(tables)
}

/// `count` numbers, from `first` on.
fn numbers_from(alloc: Global, first: u32, count: u32) -> Result<Seq<u32>, AllocError>
    requires { first + count < 2 ^ 32 }
    ensures { IfOk result (λ s. s ≡ range_with_len first count) }
{
    let mut numbers = Vec::with_capacity(alloc, count as usize)?;
    'numbers: for n in first..first + count {
        numbers.push(n)?;
    }
    Ok(Seq::from_vec(numbers))
}

/// For each class, the numbers of the features that it declares: features are numbered class by class, from 0.
pub fn own_numbers(alloc: Global, classes: &[RawClass]) -> Result<Vec<Seq<u32>>, AllocError>
    requires few { length classes.now ≤ 1000 }
    requires fits { IsTrue (list_all class_fits classes.now) }
    ensures { IfOk result (λ v. v.items ≡ own_of classes.now) }
{
    let mut rows = Vec::new(alloc);
    let mut next = 0;
    'classes: for class in classes {
        let count = class.features.len() as u32;
        rows.push(numbers_from(alloc, next, count)?)?;
        next += count;
    }
    Ok(rows)
}
