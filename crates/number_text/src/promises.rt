// What every printed text is worth.
ghost use Rattle.number_text.specs.Promises.{RoundTrip, PrintedIsExact, PrintedIsOdd};

pub fn printed_is_read_back()
    ensures { RoundTrip }
{}

pub fn printed_is_exact()
    ensures { PrintedIsExact }
{}

pub fn printed_is_odd()
    ensures { PrintedIsOdd }
{}
