//! A project that may be funded.

ghost use Rattle.std.specs.Prelude.{◌≡◌, ◌≢◌, ◌<◌, ◌≤◌, [], IfOk, string_bytes};
ghost use Rattle.pb_core.specs.Money.{largest_money};

use crate::money::Money;
use crate::no_memory::NoMemory;
use std::alloc::{Allocator, Global};
use std::marker::Model;

/// A project that may be funded: an id that is not empty, a name, and a cost above zero.
#[derive(Drop)]
pub struct Project<A: Allocator = Global> {
    id: String<A>,
    name: String<A>,
    cost: Money,
}

impl<A: Allocator> Model for Project<A> {
    ghost use Rattle.std.specs.Prelude.{string_bytes};
    ghost use Rattle.pb_core.specs.Election.{ProjectView, IsProject};

    ghost Value = { ProjectView };

    ghost view = { λ p. record { id = string_bytes p.id; name = string_bytes p.name; cost = p.cost } };

    ghost invariant = { λ p. IsProject (record {
      id = string_bytes p.id;
      name = string_bytes p.name;
      cost = p.cost;
    }) };
}

impl<A: Allocator> Project<A> {
    ghost use Rattle.pb_core.specs.Election.{IsProject};

    /// A project of these parts.
    pub fn new(id: String<A>, name: String<A>, cost: Money) -> Project<A>
        requires has_id { string_bytes id ≢ [] }
        requires costs { 0 < cost }
        requires affordable { cost ≤ largest_money }
        ensures id { result.id ≡ string_bytes id }
        ensures name { result.name ≡ string_bytes name }
        ensures cost { result.cost ≡ cost }
    {
        Project { id, name, cost }
    }

    /// The same project, in memory of its own.
    pub fn copy<B: Allocator>(&self, alloc: B) -> Result<Project<B>, NoMemory>
    where
        B: Copy,
        ensures { IfOk result (λ project. project ≡ self.now) }
    {
        let id = String::from_str(alloc, self.id())?;
        let name = String::from_str(alloc, self.name())?;
        Ok(Project::new(id, name, self.cost()))
    }

    /// The id, by which votes name the project.
    pub fn id(&self) -> &str
        ensures id { result.now ≡ self.now.id }
        ensures is_project { IsProject self.now }
    {
        self.id.as_str()
    }

    /// The name; it may be empty.
    pub fn name(&self) -> &str
        ensures { result.now ≡ self.now.name }
    {
        self.name.as_str()
    }

    /// The cost, in hundredths: above zero, and at most `Money::LARGEST`.
    pub fn cost(&self) -> Money
        ensures cost { result ≡ self.now.cost }
        ensures is_project { IsProject self.now }
    {
        self.cost
    }
}
