// What the receiver does, as definitions and laws, without code (01, The receiver's phases). The code that meets them is in receiver_decide
// and receiver.
#![tactic(auto)]
