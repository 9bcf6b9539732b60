// One step down a tree.
ghost use Rattle.std.specs.Prelude.{◌≡◌, ◌≤◌, ◌<◌};
ghost use Rattle.tree.specs.Stepping.{left_child, right_child, step_left, step_right};

use crate::root::Root;
use bits::either;
use pool::Fork;

// The child of a fork that a place leads to, whether it is the left one, and the place in it.
#[derive(Clone, Copy, Debug, PartialEq, Eq, Hash)]
pub struct Step {
    pub left: bool,
    pub child: Root,
    pub index: u64,
}

impl Root {
    // The left and the right child, where the fork is what stands at the top.
    pub fn children(self, fork: Fork) -> (Root, Root)
        requires { fork.left_total ≤ self.length }
        ensures { result ≡ (left_child fork, right_child fork self.length) }
    {
        let left = Root {
            node: fork.left,
            length: fork.left_total,
        };
        let right = Root {
            node: fork.right,
            length: self.length - fork.left_total,
        };
        (left, right)
    }

    // Left where the place is below the left child's total, else right. Each number is chosen by itself, and so without
    // a jump, which a walk to any place would have the processor guess.
    pub fn toward(self, fork: Fork, index: u64) -> Step
        requires { fork.left_total ≤ self.length }
        ensures to_left { index < fork.left_total → result ≡ step_left fork index }
        ensures to_right { fork.left_total ≤ index → result ≡ step_right fork self.length index }
    {
        let left = index < fork.left_total;
        Step {
            left,
            child: Root {
                node: either(left, fork.left, fork.right),
                length: either(left, fork.left_total, self.length - fork.left_total),
            },
            index: index - either(left, 0, fork.left_total),
        }
    }
}
