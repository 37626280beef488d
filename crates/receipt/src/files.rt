// The files that are named: of each its line, or the check of the lines in it.
use crate::job::Job;
use crate::list::List;
use crate::name::Name;
use crate::{arguments, check, line};
use program::arguments::Argument;
use program::output::Unwritten;
use program::status::Status;

// Does what is asked for with each file, and answers how that ended.
pub fn all(job: &Job) -> Status {
    Status::from(all_well(job) == Ok(true))
}

// Whether all goes well with the files and with their tally. Once something could not be written, nothing more is done.
fn all_well(job: &Job) -> Result<bool, Unwritten> {
    let mut list = List::new();
    let good = each(job, &mut list)?;
    if job.asked.tally {
        list.print_tally(&job.program)?;
    }
    Ok(good)
}

// Whether all goes well with each file. The receipts that are made are put into the list.
fn each(job: &Job, list: &mut List) -> Result<bool, Unwritten> {
    let mut good = true;
    for argument in arguments::all(job.program.rt) {
        if let Argument::File(i) = argument {
            good &= of_argument(job, i, list)?;
        }
    }
    Ok(good)
}

// Does what is asked for with the file that argument i names.
fn of_argument(job: &Job, i: usize, list: &mut List) -> Result<bool, Unwritten> {
    let mut text = io::buffer();
    match program::arguments::get(job.program.rt, i, &mut text) {
        Some(bytes) => named(job, Name { bytes }, list),
        None => {
            job.program.say_alone(b"a file's name is too long");
            Ok(false)
        }
    }
}

fn named(job: &Job, name: Name, list: &mut List) -> Result<bool, Unwritten> {
    if job.asked.check {
        check::list(job, name)
    } else {
        print(job, name, list)
    }
}

// Prints the line of a file.
fn print(job: &Job, name: Name, list: &mut List) -> Result<bool, Unwritten> {
    let Some(f) = fingerprint::of_file(&job.program, job.kind(), job.key, name.bytes) else {
        return Ok(false);
    };
    let bits = job.asked.length.then_some(f.bits);
    line::print(&job.program, f.shown(), bits, name)?;
    list.keep(f.receipt());
    Ok(true)
}
