//! What the rule says of tasks.
ghost use Rattle.cm_deques.specs.Rule.{InOrder, NoneLost};

use crate::task::Task;

/// At every moment what the owner pushed and didn't pop is what lies in the deque, in the order of the pushes, and what the
/// ends stole: no task is lost or doubled.
pub fn no_task_is_lost<T: Task>()
    ensures order { InOrder T.lies }
    ensures none { NoneLost T.lies }
{}
