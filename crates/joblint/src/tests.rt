// Faults at the opening of a table: the job line of `g`, the number and the table line.
use crate::survey::look_through;

// The number, the job line and the table line of the fault; zeros where there is none.
fn fault_of(job: &str) -> (u8, u64, u32) {
    match look_through(job.as_bytes()) {
        Ok(_) => (0, 0, 0),
        Err(fault) => (
            fault.refusal.number(),
            fault.job_line,
            fault.table_line.unwrap_or(0),
        ),
    }
}

#[test]
fn an_empty_table(rt: HostRuntime) {
    assert_eq!(rt; fault_of("# no table\ng\n"), (5, 2, 0));
}

#[test]
fn a_line_that_no_cache_has(rt: HostRuntime) {
    assert_eq!(rt; fault_of("c,Q,4,16,2\ng\n"), (6, 2, 1));
    assert_eq!(rt; fault_of("c,F,3,16,2\n#\ng\n"), (7, 3, 1));
    assert_eq!(rt; fault_of("c,F,4,16,2\nc,F,4,2048,2\ng\n"), (8, 3, 2));
    assert_eq!(rt; fault_of("c,F,4,16,2\nc,P,4,16,3\ng\n"), (9, 3, 2));
}

#[test]
fn lines_out_of_order(rt: HostRuntime) {
    assert_eq!(rt; fault_of("c,F,4,16,2\nc,F,4,16,2\ng\n"), (10, 3, 2));
    assert_eq!(rt; fault_of("c,F,4,32,2\nc,F,8,16,3\ng\n"), (10, 3, 2));
    assert_eq!(rt; fault_of("c,F,8,16,2\nc,L,4,16,3\ng\n"), (10, 3, 2));
    assert_eq!(rt; fault_of("c,L,4,16,2\nc,F,4,16,3\ng\n"), (10, 3, 2));
}

#[test]
fn lines_in_order(rt: HostRuntime) {
    assert_eq!(rt;
        fault_of("c,L,8,16,3\nc,F,4,32,2\nc,F,4,32,3\nc,L,4,32,1\nc,F,8,32,1\ng\n"),
        (0, 0, 0)
    );
}

#[test]
fn a_table_that_is_not_opened(rt: HostRuntime) {
    assert_eq!(rt; fault_of("c,Q,3,3,17\n"), (0, 0, 0));
}
