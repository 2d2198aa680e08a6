//! What all runs of a file have in common, and which runs are answered.
ghost use Rattle.nz_run.specs.Completeness.{ValidRunsAreAnswered, ConversionsAreAnswered, ListingsAreAnswered, PointsAreAnswered, UnboundedAreAnswered};
ghost use Rattle.nz_run.specs.Closures.{ClosuresAreStored};
ghost use Rattle.nz_run.specs.Laws.{ModesGiveOneText, RunsGiveOneText, ConversionsKeepTheFile};

use nz_ideal::closures_are_answered;
use nz_input::{texts_have_one_file, texts_keep_limits, written_files_are_read_back};
use nz_solve::modes_agree;
use nz_words::words_order_one_thing;

/// What answers a file does not depend on the mode: where words ask for the same of it, with no cover, they give one text.
pub fn modes_give_one_text()
    ensures { ModesGiveOneText }
{
    modes_agree();
}

/// Two runs that end with Done on one input store one text, where their words ask for the same of its file, with no cover.
pub fn runs_give_one_text()
    ensures { RunsGiveOneText }
{
    modes_give_one_text();
    texts_have_one_file();
    texts_keep_limits();
}

/// What the clauses of `run` say leaves no way out: where the words order something, the input is the text of a file with a
/// meaning, without a line and without a degree of 0 or less, no number of its run is too large and no list of it is longer
/// than the limit, and no fault and no stop comes from outside, a run ends with Done, or for want of memory.
pub fn valid_runs_are_answered()
    ensures { ValidRunsAreAnswered }
{
    words_order_one_thing();
    texts_have_one_file();
}

/// What a conversion stores is read back as the file that it read, and as no other.
pub fn conversions_keep_the_file()
    ensures { ConversionsKeepTheFile }
{
    texts_keep_limits();
    written_files_are_read_back();
}

/// A conversion whose input is a text of a file, and that no fault disturbs, ends with Converted, or for want of memory.
pub fn conversions_are_answered()
    ensures { ConversionsAreAnswered }
{
    words_order_one_thing();
    texts_have_one_file();
}

/// A run that ends with Done on a file with monomials stores the integral closure of their ideal.
pub fn closures_are_stored()
    ensures { ClosuresAreStored }
{
    words_order_one_thing();
    texts_have_one_file();
    texts_keep_limits();
    closures_are_answered();
}

/// A run that lists units, whose input is a text of a file with a meaning, with small numbers and short lists, and that no fault
/// disturbs, ends with UnitsDone, or for want of memory.
pub fn listings_are_answered()
    ensures { ListingsAreAnswered }
{
    words_order_one_thing();
    texts_have_one_file();
}

/// A run that lists lattice points, whose input is a text of a file with a meaning and with a bounded system, with small numbers and
/// small shadows, and that no fault disturbs, ends with Points, or for want of memory.
pub fn points_are_answered()
    ensures { PointsAreAnswered }
{
    words_order_one_thing();
    texts_have_one_file();
}

/// The same run ends with Unbounded, or for want of memory, where the system is not bounded.
pub fn unbounded_are_answered()
    ensures { UnboundedAreAnswered }
{
    words_order_one_thing();
    texts_have_one_file();
}
