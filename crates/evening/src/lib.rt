// An evening of calls: what is printed for a call file is in specs/. There is no code here; `printing` puts the lines, and `player` plays.
#![tactic(auto)]
