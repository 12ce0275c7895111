ghost use Rattle.std.specs.Prelude.{map};
ghost use Rattle.output.specs.Lent.{LineWritten, LinesWritten};
ghost use Rattle.answer_lines.specs.Answers.{answer_line};

use output::answers::LineWriter;
use output::lines::Lead;
use output::paper::Paper;
use rules::calls::Answer;
use runs::exchange::Exchange;
use terms::refusals::Refusal;
use values::kinds::Kind;

const PLUS: Lead = Lead::Letter(b'+');

// Writes the line of a job call's answer: `+`, then what the call is told; or the line of its refusal.
pub fn write_answer<K: Kind>(
    paper: &mut Paper<'_>,
    answer: &Result<Answer<K>, Refusal>,
) -> Result<(), Refusal>
    ensures { LineWritten (answer_line K.form answer.now) paper.old result paper.new }
{
    match *answer {
        Ok(Answer::Opened(job)) => paper.write_line(PLUS, &[job.0], None),
        Ok(Answer::Told(value)) => paper.write_fields(PLUS, &value),
        Ok(Answer::Stored) => paper.write_line(PLUS, &[], None),
        Ok(Answer::Ended(place)) => paper.write_line(PLUS, &[place.0], None),
        Err(refusal) => paper.write_refusal(refusal),
    }
}

// Writes the lines of the answers of exchanges.
struct AnswerWriter;

impl<K: Kind> LineWriter<Exchange<K>> for AnswerWriter {
    ghost line = { λ writer e. answer_line K.form e.answer };

    fn write(&self, paper: &mut Paper<'_>, exchange: &Exchange<K>) -> Result<(), Refusal> {
        write_answer(paper, &exchange.answer)
    }
}

// Writes a line for the answer of each of a run's exchanges, until one finds no room.
pub fn write_answers<K: Kind>(paper: &mut Paper<'_>, list: &[Exchange<K>]) -> Result<(), Refusal>
    ensures { LinesWritten (map (λ e. answer_line K.form e.answer) list.now) paper.old result paper.new }
{
    paper.write_lines(list, &AnswerWriter)
}
