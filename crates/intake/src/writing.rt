// The frames of an answer.
ghost use Rattle.std.specs.Prelude.{◌≡◌, ◌+◌, ◌*◌, ◌≤◌, [], ◌∷◌, ◌++◌, length};
ghost use Rattle.frames.specs.Frames.{line_of};
ghost use Rattle.intake.specs.Answering.{fault_line};
ghost use Rattle.intake.specs.Filling.{Appends, Fills, Stands, class_size, record_line, record_lines, records_lines, size_of, summary_line, total_size};
ghost use Rattle.terms.specs.Limits.{class_count};

use deposits::records::{ClassMargin, Summary};
use entries::line_fault::LineFault;
use frames::codec::write;
use frames::frame::Frame;
use frames::kinds::{DepositFrame, DepositRecord, FaultFrame, TotalFrame, TotalRecord};
use terms::limits::{ANSWER_MEMORY, CLASSES};

// Writes the frame of `item` at the front of `memory`, which has room for it, and tells how many bytes these are.
// Kept: no plainer: a writer over the memory would say in each contract how far it is filled, as the counts here do.
fn put<F: Frame>(item: &F::Record, memory: &mut [u8]) -> usize
    requires { size_of F.kind ≤ length memory.old }
    ensures fills { Fills (line_of F.kind (F.figures item.now) ∷ []) memory.old result memory.new }
    ensures size { result ≡ size_of F.kind }
{
    write::<F>(item, memory).unwrap()
}

// Writes the one frame of a fault.
pub(crate) fn write_fault(refused: LineFault, answer: &mut [u8; ANSWER_MEMORY]) -> usize
    ensures fills { Fills (fault_line refused ∷ []) answer.old result answer.new }
{
    put::<FaultFrame>(&refused.into(), answer)
}

// Writes the frame of a class.
// Kept: margin and record are of other crates, so a From would need a type around one.
fn write_record(class: u8, margin: &ClassMargin, memory: &mut [u8]) -> usize
    requires { class_size ≤ length memory.old }
    ensures fills { Fills (record_line class margin.now ∷ []) memory.old result memory.new }
    ensures size { result ≤ class_size }
{
    let item = DepositRecord {
        class,
        drr: margin.drr.grosz(),
        drs: margin.drs.grosz(),
        dswk: margin.dswk.grosz(),
        kspk: margin.kspk.grosz(),
        dolr: margin.dolr.grosz(),
    };
    put::<DepositFrame>(&item, memory)
}

// Writes the frame of a class, if it is held.
fn write_class(class: u8, margin: &ClassMargin, memory: &mut [u8]) -> usize
    requires { class_size ≤ length memory.old }
    ensures fills { Fills (record_lines class margin.now) memory.old result memory.new }
    ensures size { result ≤ class_size }
{
    if !margin.held {
        return 0;
    }
    write_record(class, margin, memory)
}

// Writes the frames of the held classes, by rising number.
// Kept: no plainer, as at `put`: the count of the bytes written is the place of the next frame.
fn write_classes(classes: &[ClassMargin; CLASSES], answer: &mut [u8]) -> usize
    requires { class_size * class_count ≤ length answer.old }
    ensures fills { Stands (records_lines class_count classes.now) answer.old result answer.new }
    ensures size { result ≤ class_size * class_count }
{
    let mut count = 0;
    for (class, margin) in classes.iter().enumerate() {
        count += write_class(class as u8, margin, &mut answer[count..]);
    }
    count
}

// Writes the frame of the whole portfolio.
// Kept: summary and record are of other crates, so a From would need a type around one.
fn write_total(summary: Summary, memory: &mut [u8]) -> usize
    requires { total_size ≤ length memory.old }
    ensures fills { Fills (summary_line summary ∷ []) memory.old result memory.new }
    ensures size { result ≤ total_size }
{
    let item = TotalRecord {
        classes: summary.classes,
        securities: summary.securities,
        pairs: summary.pairs,
        dspan: summary.dspan.grosz(),
    };
    put::<TotalFrame>(&item, memory)
}

// Writes the frame of the whole portfolio from the byte `at` on, and tells where it ends.
// Kept: no plainer, as at `put`: it is told where the frames before it end.
fn add_total(summary: Summary, at: usize, answer: &mut [u8]) -> usize
    requires { at + total_size ≤ length answer.old }
    ensures lines { Appends (summary_line summary ∷ []) at answer.old result answer.new }
    ensures end { result ≤ at + total_size }
{
    at + write_total(summary, &mut answer[at..])
}

// Writes the frames of a deposit: those of the held classes, and then that of the whole portfolio.
pub(crate) fn write_deposit(
    classes: &[ClassMargin; CLASSES],
    summary: Summary,
    answer: &mut [u8; ANSWER_MEMORY],
) -> usize
    ensures fills { Stands (records_lines class_count classes.now ++ summary_line summary ∷ []) answer.old result answer.new }
{
    let end = write_classes(classes, answer);
    add_total(summary, end, answer)
}
