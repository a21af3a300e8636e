ghost use Rattle.std.specs.Prelude.{◌≡◌, [], None, IfOk};
ghost use Rattle.cove_base.specs.HartValues.{no_rings, rings_find, rings_with};

use crate::ring::Ring;
use cove_base::{NoMemory, Page, Target};
use std::alloc::Global;
use std::marker::Model;

/// The rings of a hart's TLB: one of host pages, and two of guest pages, for fetches and for data, each under its number.
#[derive(Drop)]
pub struct Rings {
    hosts: Ring,
    fetches: Ring,
    accesses: Ring,
}

impl Model for Rings {
    ghost use Rattle.cove_base.specs.HartValues.{HartRings};

    ghost Value = { HartRings };

    ghost view = { λ a. record { hosts = a.hosts; fetches = a.fetches; accesses = a.accesses } };
}

impl Rings {
    /// Rings that name nothing. They take their memory here and no more later.
    pub fn new(alloc: Global) -> Result<Self, NoMemory>
        ensures { IfOk result (λ rings. rings ≡ no_rings) }
    {
        Ok(Rings {
            hosts: Ring::new(alloc)?,
            fetches: Ring::new(alloc)?,
            accesses: Ring::new(alloc)?,
        })
    }

    /// The page that stands for a target.
    pub fn find(&self, target: Target) -> Option<Page>
        ensures { result ≡ rings_find self.now target }
    {
        match target {
            Target::Host(page) => self.hosts.find(u64::from(page.0)),
            Target::Fetch(guest) => self.fetches.find(u64::from(guest.0)),
            Target::Access(guest) => self.accesses.find(u64::from(guest.0)),
        }
    }

    /// Puts a page in for a target, as the newest of its ring. The target is not there yet.
    pub fn fill(&mut self, target: Target, page: Page)
        requires { rings_find self.old target ≡ None }
        ensures { self.new ≡ rings_with self.old target page }
    {
        match target {
            Target::Host(key) => self.hosts.fill(u64::from(key.0), page),
            Target::Fetch(guest) => self.fetches.fill(u64::from(guest.0), page),
            Target::Access(guest) => self.accesses.fill(u64::from(guest.0), page),
        }
    }

    /// Forgets the pages of guests.
    pub fn clear_guests(&mut self)
        ensures { self.new ≡ record self.old { fetches = []; accesses = [] } }
    {
        self.fetches.clear();
        self.accesses.clear();
    }

    /// Forgets every page.
    pub fn clear(&mut self)
        ensures { self.new ≡ no_rings }
    {
        self.hosts.clear();
        self.fetches.clear();
        self.accesses.clear();
    }
}
