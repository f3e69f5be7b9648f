// What may cross threads. Each function here is proved where the types named in its calls do.
use crate::{Form, InstanceFault, Member};

fn crosses<T: Send + Sync>(_it: &T) {}

// Faults may be moved and shared.
fn _faults_cross_threads(fault: &InstanceFault, form: &Form, member: &Member) {
    crosses(fault);
    crosses(form);
    crosses(member);
}
