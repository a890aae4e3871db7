//! The orders in which the search took requests, which share their beginnings.
ghost use Rattle.std.specs.Prelude.{◌≡◌, ℕ, ◌<◌, ◌≤◌, [], ◌∷◌, ◌++◌, length, slice_index_or, IfOk, OnOk, OnErr, List};
ghost use Rattle.sc_linear.specs.Trails.{paths_of, path_at, IsLinked};

use sc_base::OutOfMemory;
use std::alloc::Global;
use std::marker::Model;

/// One more step of an order.
#[derive(Clone, Copy)]
pub struct Link {
    /// The number of the order that it continues.
    pub before: usize,
    /// The line at whose event the request was taken.
    pub line: u64,
    pub request: usize,
}

/// Orders by number: each is an earlier one with one more request, and order 0 is empty. Contracts
/// see the list of the orders.
#[derive(Drop)]
pub struct Trail {
    links: Vec<Link>,
}

impl Model for Trail {
    ghost use Rattle.std.specs.Prelude.{List, ℕ};
    ghost use Rattle.sc_linear.specs.Trails.{paths_of, IsLinked};

    ghost Value = { List (List (ℕ × ℕ)) };

    ghost view = { λ a. paths_of a.links.items };

    ghost invariant = { λ a. IsLinked 0 a.links.items };
}

impl Trail {
    /// Returns the trail of the empty order.
    pub fn new(alloc: Global) -> Trail
        ensures { result ≡ [] ∷ [] }
    {
        Trail {
            links: Vec::new(alloc),
        }
    }

    /// Adds the order that continues an earlier one by one request, and returns its number.
    pub fn push(&mut self, before: usize, line: u64, request: usize) -> Result<usize, OutOfMemory>
        requires { before < length self.old }
        ensures number { IfOk result (λ number. number ≡ length self.old) }
        ensures added { OnOk result (self.new ≡ self.old ++ (path_at self.old before ++ (line, request) ∷ []) ∷ []) }
    {
        self.links.push(Link {
            before,
            line,
            request,
        })?;
        Ok(self.links.len())
    }

    /// Returns the order of a number.
    pub fn read(&self, number: usize, alloc: Global) -> Result<Vec<(u64, usize)>, OutOfMemory>
        requires { number < length self.now }
        ensures { IfOk result (λ path. path.items ≡ path_at self.now number) }
    {
        let mut path = Vec::new(alloc);
        let mut at = number;
        while at > 0 {
            let link = self.links[at - 1];
            path.push((link.line, link.request))?;
            at = link.before;
        }
        path.reverse();
        Ok(path)
    }
}
