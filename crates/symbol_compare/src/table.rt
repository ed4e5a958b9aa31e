//! A table of values, each of which has one number.

ghost use Rattle.std.specs.Prelude.{◌≡◌, length};
ghost use Rattle.symbol_compare.specs.Meant.{meanings, meant_of};
ghost use Rattle.symbol_compare.specs.Table.{IsWell, Makes};
ghost use Rattle.symbol_compare.specs.Set.{AreOne};

use crate::form::ValueForm;
use crate::set::Forms;
use std::alloc::{AllocError, Global};
use std::marker::Model;

/// The most values of a table.
pub const MOST_VALUES: usize = 16_777_216;

/// Values, each made of earlier ones, of which no two are equal. Values are added and never changed.
#[derive(Drop)]
pub struct Table {
    forms: Forms,
}

impl Model for Table {
    ghost use Rattle.std.specs.Prelude.{List, [], ◌≤◌, length};
    ghost use Rattle.std.specs.Coded.{codes};
    ghost use Rattle.symbol_compare.specs.declared.form.ValueForm.{ValueForm};
    ghost use Rattle.symbol_compare.specs.contracts.form.ValueForm as form;
    ghost use Rattle.symbol_compare.specs.declared.table.TheConstants.{MOST_VALUES};
    ghost use Rattle.symbol_compare.specs.Table.{AreWell};

    ghost Value = { List ValueForm };

    ghost coded = { Prim.hlevel (codes, form.the_row.coded) };

    ghost view = { λ a. a.forms };

    ghost invariant = { λ a. (length a.forms ≤ MOST_VALUES) × AreWell [] a.forms };
}

impl Table {
    ghost use Rattle.std.specs.Prelude.{[]};
    ghost use Rattle.symbol_compare.specs.Table.{AreWell};

    /// No values.
    pub fn new(alloc: Global) -> Table
        ensures { result ≡ [] }
    {
        Table {
            forms: Forms::new(alloc),
        }
    }

    /// Adds a value made of earlier ones, unless it is there, and answers its number.
    #[tactic(auto, using(crate::proofs::Sharing::put_made, crate::proofs::Sharing::put_well))]
    pub fn put(&mut self, form: ValueForm) -> Result<u32, AllocError>
        requires { IsWell (meanings self.old) form }
        ensures { Makes self.old self.new (meant_of (meanings self.old) form) result }
    {
        if self.forms.len() >= MOST_VALUES {
            return Err(AllocError);
        }
        let number = self.forms.put(form)?;
        Ok(number as u32)
    }

    /// Each value stands once, after its parts.
    pub fn law_sound(&self)
        ensures once { AreOne self.now }
        ensures well { AreWell [] self.now }
    {
        let _count = self.forms.len();
    }
}
