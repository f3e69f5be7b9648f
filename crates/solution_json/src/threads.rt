// What may cross threads. Each function here is proved where the types named in its calls do.
use crate::{SolForm, SolMember, Solution, SolutionFault};

fn crosses<T: Send + Sync>(_it: &T) {}

// Solutions and faults may be moved and shared.
fn _solutions_cross_threads(
    solution: &Solution,
    fault: &SolutionFault,
    form: &SolForm,
    member: &SolMember,
) {
    crosses(solution);
    crosses(fault);
    crosses(form);
    crosses(member);
}
