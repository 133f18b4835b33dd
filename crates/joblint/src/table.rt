// The questions that the opening of a table asks.
use bench::lines;
use geometry::line::Line;
use jobtext::fault::Fault;
use policy::fifo::Fifo;
use policy::lru::Lru;
use policy::plru::Plru;
use policy::standard::STANDARD;
use policy::three::Policies;

// A fault at the opening names the job line of `g`, and the table line where one is to blame.
pub fn check_table(table: &[Line], job_line: u64) -> Result<(), Fault> {
    lines::check_table(&STANDARD, table).map_err(|refused| Fault {
        refusal: refused.refusal,
        job_line,
        table_line: refused.line.and_then(|line| u32::try_from(line).ok()),
    })
}
