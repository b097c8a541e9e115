//! What reading a text gives: the file that its derivation writes, what names and expressions mean at each place, where a
//! rule for names, kinds or statements is broken, and the program.
#![tactic(auto)]
