// What may cross threads. Each function here is proved where the types named in its calls do.
use crate::{CheckLogFault, Clause, Cnf, Hints, Line, Log, Truth};

fn crosses<T: Send + Sync>(_it: &T) {}

// Formulas, values of variables and faults may be moved and shared.
fn _formulas_cross_threads(clause: &Clause, cnf: &Cnf, truth: &Truth, fault: &CheckLogFault) {
    crosses(clause);
    crosses(cnf);
    crosses(truth);
    crosses(fault);
}

// Logs and their parts may be moved and shared.
fn _logs_cross_threads(hints: &Hints, line: &Line, log: &Log) {
    crosses(hints);
    crosses(line);
    crosses(log);
}
