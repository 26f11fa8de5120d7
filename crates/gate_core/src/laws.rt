ghost use Rattle.gate_core.specs.Laws.{InputSignal, GateSignal, SignalsAreCounted, FirstEncodingsAgree, AgreeingAreCodes, LeastCodesAgree, OpenCodesAreNumbers, GivenBitsMayBeLeft};

/// The value of an input's signal is the word's bit.
pub fn input_signal()
    ensures { InputSignal }
{}

/// The value of a gate's signal is its table's at the values of its two signals.
pub fn gate_signal()
    ensures { GateSignal }
{}

/// There are as many values as signals.
pub fn signals_are_counted()
    ensures { SignalsAreCounted }
{}

/// Columns have one first encoding.
pub fn first_encodings_agree()
    ensures { FirstEncodingsAgree }
{}

/// Lists that agree with patterns are the codes that keep their given bits.
pub fn agreeing_are_codes()
    ensures { AgreeingAreCodes }
{}

/// Patterns have one least list of codes.
pub fn least_codes_agree()
    ensures { LeastCodesAgree }
{}

/// Where no bit is given, the least codes are the numbers of the scenarios.
pub fn open_codes_are_numbers()
    ensures { OpenCodesAreNumbers }
{}

/// An encoding that keeps given bits is an encoding.
pub fn given_bits_may_be_left()
    ensures { GivenBitsMayBeLeft }
{}
