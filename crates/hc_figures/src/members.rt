//! JSON objects and arrays as they are made, member by member and value by value.

ghost use Rattle.std.specs.Prelude.{◌≡◌, ◌≤◌, ◌++◌, ◌∷◌, [], ℕ, List, Some, suc, IfOk, string_bytes};
ghost use Rattle.serde_json.specs.Data.{Data, Members, array as array_data, boolean, depth, no_members, object as object_data, put as with_member, string};
ghost use Rattle.serde_json.specs.Read.{max_depth, read};
ghost use Rattle.serde_json.specs.View.{items_of, members_view, view};
ghost use Rattle.hc_figures.specs.Entries.{number_data, some_data};
ghost use Rattle.hc_figures.specs.Nesting.{MembersNestTo, NestsTo};

use serde_json::{Map, Value, push, put};
use std::alloc::{AllocError, Global};

/// A JSON object that is told its members. Where memory is refused for one of them, the object is never
/// given: `into_members`, `into_value` and `into_text` return that.
pub struct Object {
    alloc: Global,
    members: Map<String, Value>,
    is_refused: bool,
}

impl Drop for Object {
    fn drop(self) {
        let Object {
            alloc: _,
            members,
            is_refused: _,
        } = self;
        drop(members);
    }
}

impl Object {
    ghost use Rattle.hc_figures.specs.Objects.{Has, HasDepth};

    /// No member.
    pub fn new(alloc: Global) -> Self
        ensures has { Has result no_members }
        ensures nests { (n : ℕ) → HasDepth n result }
    {
        Object {
            alloc,
            members: Map::new(alloc),
            is_refused: false,
        }
    }

    /// An object that has these members.
    pub fn of(alloc: Global, members: Map<String, Value>) -> Self
        ensures { Has result (members_view members.entries) }
    {
        Object {
            alloc,
            members,
            is_refused: false,
        }
    }

    /// Adds a member, if its value could be made.
    pub fn put(&mut self, name: &str, made: Result<Value, AllocError>)
        // Whatever value was made.
        ensures has { (value : Data) → IfOk made (λ v. view v ≡ value) → (all : Members) → Has self.old all → Has self.new (with_member name.now value all) }
        ensures nests { (n : ℕ) → IfOk made (NestsTo n) → HasDepth n self.old → HasDepth n self.new }
    {
        let Ok(value) = made else {
            self.is_refused = true;
            return;
        };
        match put(&mut self.members, self.alloc, name, value) {
            Ok(()) => {}
            Err(_) => self.is_refused = true,
        }
    }

    /// Adds a member that is a number.
    pub fn number(&mut self, name: &str, number: u64)
        ensures has { (all : Members) → Has self.old all → Has self.new (with_member name.now (number_data number) all) }
        ensures nests { (n : ℕ) → HasDepth n self.old → HasDepth n self.new }
    {
        self.put(name, Ok(Value::from(number)));
    }

    /// Adds a member that is a number, or null where there is none.
    pub fn some(&mut self, name: &str, number: Option<u64>)
        ensures has { (all : Members) → Has self.old all → Has self.new (with_member name.now (some_data number) all) }
        ensures nests { (n : ℕ) → HasDepth n self.old → HasDepth n self.new }
    {
        match number {
            Some(number) => self.number(name, number),
            None => self.put(name, Ok(Value::Null)),
        }
    }

    /// Adds a member that is true or false.
    pub fn flag(&mut self, name: &str, flag: bool)
        ensures has { (all : Members) → Has self.old all → Has self.new (with_member name.now (boolean flag) all) }
        ensures nests { (n : ℕ) → HasDepth n self.old → HasDepth n self.new }
    {
        self.put(name, Ok(Value::from(flag)));
    }

    /// Adds a member that is a text.
    pub fn text(&mut self, name: &str, text: &str)
        ensures has { (all : Members) → Has self.old all → Has self.new (with_member name.now (string text.now) all) }
        ensures nests { (n : ℕ) → HasDepth n self.old → HasDepth n self.new }
    {
        let made = Value::try_from_str(self.alloc, text);
        self.put(name, made);
    }

    /// Its members.
    pub fn into_members(self) -> Result<Map<String, Value>, AllocError>
        ensures has { (all : Members) → Has self all → IfOk result (λ members. members_view members.entries ≡ all) }
        ensures nests { (n : ℕ) → HasDepth n self → IfOk result (MembersNestTo n) }
    {
        let Object {
            alloc: _,
            members,
            is_refused,
        } = self;
        if is_refused {
            return Err(AllocError);
        }
        Ok(members)
    }

    /// The object as a value.
    pub fn into_value(self) -> Result<Value, AllocError>
        ensures has { (all : Members) → Has self all → IfOk result (λ v. view v ≡ object_data all) }
        ensures nests { (n : ℕ) → HasDepth n self → IfOk result (NestsTo (suc n)) }
    {
        Ok(Value::Object(self.into_members()?))
    }

    /// The object on one line.
    pub fn into_text(self) -> Result<String, AllocError>
        // It is read back, unless it nests too deep for that.
        ensures { (all : Members) → Has self all → depth (object_data all) ≤ max_depth → IfOk result (λ text. read (string_bytes text) ≡ Some (object_data all)) }
    {
        let alloc = self.alloc;
        self.into_value()?.to_string(alloc)
    }
}

/// A JSON array that is told its values. Where memory is refused for one of them, `into_value` returns that.
pub struct Array {
    values: Vec<Value>,
    is_refused: bool,
}

impl Drop for Array {
    fn drop(self) {
        let Array {
            values,
            is_refused: _,
        } = self;
        drop(values);
    }
}

impl Array {
    ghost use Rattle.hc_figures.specs.Objects.{Holds, HoldsDepth};

    /// No value.
    pub fn new(alloc: Global) -> Self
        ensures holds { Holds result [] }
        ensures nests { (n : ℕ) → HoldsDepth n result }
    {
        Array {
            values: Vec::new(alloc),
            is_refused: false,
        }
    }

    /// Adds a value, if it could be made.
    pub fn push(&mut self, made: Result<Value, AllocError>)
        // Whatever value was made.
        ensures holds { (value : Data) → IfOk made (λ v. view v ≡ value) → (all : List Data) → Holds self.old all → Holds self.new (all ++ value ∷ []) }
        ensures nests { (n : ℕ) → IfOk made (NestsTo n) → HoldsDepth n self.old → HoldsDepth n self.new }
    {
        let Ok(value) = made else {
            self.is_refused = true;
            return;
        };
        match push(&mut self.values, value) {
            Ok(()) => {}
            Err(_) => self.is_refused = true,
        }
    }

    /// The array as a value.
    pub fn into_value(self) -> Result<Value, AllocError>
        ensures holds { (all : List Data) → Holds self all → IfOk result (λ v. view v ≡ array_data (items_of all)) }
        ensures nests { (n : ℕ) → HoldsDepth n self → IfOk result (NestsTo (suc n)) }
    {
        let Array { values, is_refused } = self;
        if is_refused {
            return Err(AllocError);
        }
        Ok(Value::Array(values))
    }
}
