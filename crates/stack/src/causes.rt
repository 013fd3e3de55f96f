ghost use Rattle.stack.specs.Stacks.{stack_refusal};
ghost use Rattle.stack.specs.declared.causes.StackFault.TheVariants.{Dialect, Tree};
ghost use Rattle.std.specs.Prelude.{◌≡◌};

use fault::{Cause, Fault};
use layers::DialectFault;
use tree::TreeFault;

/// Why lists make no dialect over a family tree.
#[derive(Clone, Copy, PartialEq, Eq, Debug)]
pub enum StackFault {
    /// The tree's lists are no family tree.
    Tree(TreeFault),
    /// The entries are no dialect over that tree.
    Dialect(DialectFault),
}

// Written out: a derived `From` has no contract, and `?` has to say which variant it makes.
impl From<TreeFault> for StackFault {
    ghost from_gives = { λ fault r. r ≡ Tree fault };

    fn from(fault: TreeFault) -> StackFault {
        StackFault::Tree(fault)
    }
}

impl From<DialectFault> for StackFault {
    ghost from_gives = { λ fault r. r ≡ Dialect fault };

    fn from(fault: DialectFault) -> StackFault {
        StackFault::Dialect(fault)
    }
}

impl Cause for StackFault {
    ghost refusal = { stack_refusal };

    fn fault(&self) -> Fault {
        match self {
            StackFault::Tree(cause) => cause.fault(),
            StackFault::Dialect(cause) => cause.fault(),
        }
    }
}
