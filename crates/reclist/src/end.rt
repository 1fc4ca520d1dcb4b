// How a recording ended.
ghost use Rattle.std.specs.Prelude.{◌≡◌, if◌then◌else◌, ℕ};
ghost use Rattle.cli.specs.Statuses.{status_of};
ghost use Rattle.reclist.specs.Ends.{is_all_read};

use answer::Fault;
use cli::Failure;
use recording::RECORDS;

// The records that were listed, and the fault of the next one.
#[derive(Clone, Copy)]
pub(crate) struct End {
    pub listed: u64,
    pub fault: Option<Fault>,
}

// An end before the input was all read is a failure.
pub(crate) fn ended(end: End) -> Result<(), Failure>
    ensures { (faulty : ℕ) → status_of faulty result ≡ (if is_all_read end then 0 else faulty) }
{
    match end.fault {
        Some(fault) => Err(Failure::Fault(anyhow::Error::from(fault))),
        None if end.listed == RECORDS => Err(Failure::Fault(anyhow::anyhow!(
            "{RECORDS} records were listed, and nothing past them was read"
        ))),
        None => Ok(()),
    }
}
