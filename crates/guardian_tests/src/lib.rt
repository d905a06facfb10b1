//! Tests that only Rattle can run, by the rows in data/: what a journal says of owners and replays,
//! guardians that threads share, and runs of scripts that no process can tell. A row that doesn't get
//! the answer that it says is printed, and the status is then 1, after all parts have run.
#![tactic(auto)]

mod alone;
mod call_reading;
mod calling;
mod each_call;
mod heap;
mod hold;
mod host;
mod journal_laws;
mod laws;
mod model_laws;
mod parts;
mod row;
mod row_fault;
mod scripts;
mod session;
mod setting;
mod sharing;
mod telling;
mod testing;
mod turns;
mod two_threads;
mod waiting;
mod word_reading;

use host::Host;
use row_fault::Result;
use setting::Setting;
use std::process::ExitCode;
use std::rt::Files;
use testing::test_rows;
use two_threads::print_payments;

/// Runs all tests. `FAILURE`: a row didn't get its answer, or a stream failed.
pub fn run(rt: impl Host + Files + AllocGlobal) -> ExitCode {
    match test_all(rt) {
        Ok(true) => ExitCode::SUCCESS,
        Ok(false) => ExitCode::FAILURE,
        Err(fault) => {
            // A stream that failed isn't written to again.
            let _ = rt.println(fault.as_str());
            ExitCode::FAILURE
        }
    }
}

// Returns whether all comes out as it should.
fn test_all<R: Host + Files + AllocGlobal>(rt: R) -> Result<bool> {
    let setting = Setting::new(rt.alloc())?;
    laws::call_laws();
    if !parts::are_parts_right(setting.texts)? || !heap::do_budgets_refuse(rt.alloc())? {
        return Ok(false);
    }
    rt.println("used_up_budgets_refuse")?;
    print_payments(rt, setting.texts)?;
    test_rows(rt, setting)
}
