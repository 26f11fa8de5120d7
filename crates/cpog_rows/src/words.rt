//! Words that name no command.

use crate::running::run;
use cpog_base::Status;
use std::test::Fail;

const USAGE: &[u8] =
    b"cpog: usage: synth [--bits D] [--budget D] [--exact] | normal | cnf G [--bits D] | solve [--budget D] | lrat | check | verilog | sim | bulk N\n";

#[test]
fn other_words_print_the_usage_line(rt: HostRuntime) -> Result<(), Fail> {
    let table: [&[&str]; 35] = [
        &[],
        &["help"],
        &["Synth"],
        &["synth", "x"],
        &["synth", ""],
        &["synth", "--bits"],
        &["synth", "--bits", "0"],
        &["synth", "--bits", "9"],
        &["synth", "--bits", "02"],
        &["synth", "--bits", ""],
        &["synth", "--bits=2"],
        &["synth", "--bits", "2", "--bits", "2"],
        &["--bits", "2", "synth"],
        &["normal", "--bits", "2"],
        &["normal", "x"],
        &["Normal"],
        &["synth", "--budget", "0"],
        &["synth", "--budget", "8388609"],
        &["synth", "--exact", "1"],
        &["synth", "--exact", "--exact"],
        &["synth", "--exact", "--bits"],
        &["synth", "--exactly"],
        &["cnf", "1", "--exact"],
        &["solve", "--exact"],
        &["cnf"],
        &["cnf", "4097"],
        &["cnf", "04"],
        &["cnf", "-1"],
        &["cnf", "1", "--bits", "1"],
        &["cnf", "--bits", "2", "1"],
        &["cnf", "1", "--bits", "2", "--bits", "2"],
        &["cnf", "1", "2"],
        &["lrat", "x"],
        &["solve", "--budget", "0"],
        &["solve", "--bits", "2"],
    ];
    for words in table {
        let ending = run(rt.alloc(), words, b"scenario A = a\n")?;
        assert_eq!(rt; ending.status, Status::Usage);
        assert_eq!(rt; ending.taken.as_slice(), USAGE);
    }
    Ok(())
}
