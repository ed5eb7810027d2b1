ghost use Rattle.std.specs.Prelude.{◌≡◌, [], IfOk};
ghost use Rattle.flatten_rules.specs.Unfolding.{occurrences};
ghost use Rattle.flatten_rules.specs.Design.{IsGood};
ghost use Rattle.flatten_rules.specs.Walking.{way_of, GoesOn};

use crate::walk::way::Way;
use emh_base::{ModId, NoMemory, PInst, Plain};
use std::alloc::Global;
use std::marker::Model;

/// A walk through the occurrences of a design, in preorder, instances by rising id. It begins before the top.
#[derive(Drop)]
pub struct Walk<'a> {
    /// The way to the occurrence that the walk is at.
    way: Way<'a>,
    /// The instances in that occurrence that are still to come.
    here: &'a [PInst],
    /// The same in each occurrence above it, from the top.
    above: Vec<&'a [PInst]>,
    begun: bool,
}

impl<'a> Model for Walk<'a> {
    ghost use Rattle.flatten_rules.specs.Walking.{Walking};

    ghost Value = { Walking };

    ghost use Rattle.flatten_rules.specs.inside.Pending.{walking, IsWalk};

    ghost view = { λ walk. walking walk.way walk.here.now walk.above.items walk.begun };

    ghost invariant = { λ walk. IsWalk walk.way walk.here.now walk.above.items walk.begun };
}

impl<'a> Walk<'a> {
    /// A walk that is about to begin at the top of a design.
    pub fn new(alloc: Global, plain: &'a Plain, top: ModId) -> Result<Walk<'a>, NoMemory>
        requires { IsGood plain.now top }
        ensures { IfOk result (λ walk. walk
            ≡ record { plain = plain.now; top = top; path = []; rest = occurrences plain.now top }) }
    {
        let way = Way::new(alloc, plain, top)?;
        let here = way.module().insts.as_slice();
        Ok(Walk {
            way,
            here,
            above: Vec::new(alloc),
            begun: false,
        })
    }

    /// The way to the occurrence that the walk is at.
    pub fn way(&self) -> &Way<'a>
        ensures { result.now ≡ way_of self.now }
    {
        &self.way
    }

    /// Goes on to the next occurrence, and tells whether there was one. After want of memory nothing is told of what is
    /// still to come.
    pub fn advance(&mut self) -> Result<bool, NoMemory>
        ensures plain { self.new.plain ≡ self.old.plain }
        ensures top { self.new.top ≡ self.old.top }
        ensures next { IfOk result (λ more. GoesOn more self.old self.new) }
    {
        if !self.begun {
            self.begun = true;
            return Ok(true);
        }
        loop {
            match self.here.split_first() {
                None => match self.above.pop() {
                    None => return Ok(false),
                    Some(insts) => {
                        self.here = insts;
                        self.way.pop();
                    }
                },
                Some((inst, others)) => {
                    self.above.push(others)?;
                    return match self.way.push(inst) {
                        Ok(()) => {
                            self.here = self.way.module().insts.as_slice();
                            Ok(true)
                        }
                        Err(NoMemory) => {
                            self.above.pop();
                            Err(NoMemory)
                        }
                    };
                }
            }
        }
    }
}
