// The book in lent bytes: its archive behind 8 bytes of its length. A call reads the book, makes its answer, and puts both back. Definitions
// and laws; the code stands in c_read, c_write and above.
#![tactic(auto)]
