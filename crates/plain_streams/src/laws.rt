//! The laws of streams. Each is the contract of a function that does nothing.

ghost use Rattle.std.specs.Prelude.{◌≡◌, ℕ, List, [], ◌++◌, codes};
ghost use Rattle.plain_tables.specs.declared.command.Limits.{Limits};
ghost use Rattle.plain_tables.specs.Databases.{Database};
ghost use Rattle.plain_streams.specs.Requests.{Request};
ghost use Rattle.plain_streams.specs.Division.{EveryStreamDivides, RequestsStayFirst, DividesInOneWay};
ghost use Rattle.plain_streams.specs.Dumps.{DumpsAreRequests, DumpsLoadAgain, DumpsRestore, DumpsRunAgain};
ghost use Rattle.plain_streams.specs.Runs.{Answers, RunsStaySound};
ghost use Rattle.plain_streams.specs.Texts.{AreTextsUtf8, TextsStayUtf8, ReachedAreReadBack, DumpsOfRunsLoadAgain};

/// Every stream of bytes is requests, each whole, and then a rest.
pub fn every_stream_divides()
    ensures { EveryStreamDivides }
{}

/// The requests of a stream stay its first requests however the stream goes on.
pub fn requests_stay_first()
    ensures { RequestsStayFirst }
{}

/// A stream is requests and a rest in one way only, and so whatever the pieces are in which it comes.
pub fn divides_in_one_way()
    ensures { DividesInOneWay }
{}

/// A request that is answered by an error leaves the database as it was.
pub fn errors_change_nothing()
    ensures { (limits : Limits) (tables : Database) (request : Request) (answer words : List ℕ) (after : Database)
        → Answers limits tables request answer after → answer ≡ codes "error " ++ words → after ≡ tables }
{}

/// Every database that a run from a sound one reaches is sound.
pub fn runs_stay_sound()
    ensures { RunsStaySound }
{}

/// What a dump of a table answers, loaded into an empty copy of the table, gives the copy the table's rows; and so the table
/// without its rows, loaded from its own dump, is as it was.
pub fn dumps_load_again()
    ensures copy { DumpsLoadAgain }
    ensures restored { DumpsRestore }
{}

/// What a dump answers is one whole request, which loads the block; and so, as a stream, it gives an empty copy of the table
/// the table's rows.
pub fn dumps_are_requests()
    ensures request { DumpsAreRequests }
    ensures run { DumpsRunAgain }
{}

/// Where all texts of a database are UTF-8, so are those of every database that a run from it reaches; a database of no tables
/// has only such texts.
pub fn texts_stay_utf8()
    ensures none { AreTextsUtf8 [] }
    ensures run { TextsStayUtf8 }
{}

/// All values of a table are read back that a run from UTF-8 texts reaches, where no text of it is written as null is; and so
/// what its dump answers, if the run is from no tables, loaded into an empty copy of the table, gives the copy the table's rows.
pub fn dumps_of_runs_load_again()
    ensures read_back { ReachedAreReadBack }
    ensures copy { DumpsOfRunsLoadAgain }
{}
